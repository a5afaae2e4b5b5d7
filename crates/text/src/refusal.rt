// What a refusal says: its number, the layer that refuses, and the place.
#[derive(Clone, Copy, Debug, PartialEq)]
pub enum Layer {
    Text,
    Rules,
    Deal,
    Match,
}

#[derive(Clone, Copy, Debug, PartialEq)]
pub struct Refusal {
    pub number: u8,
    pub layer: Layer,
    pub place: usize,
}
