// The sorts of bytes.
ghost use Rattle.std.specs.Prelude.{◌≡◌};
ghost use Rattle.definitions.specs.Text.{sort, in_words};
ghost use Rattle.text.specs.View.{sorted};

#[derive(Clone, Copy)]
pub enum Sort {
    Word,
    Divider,
    Open,
    Close,
    Comment,
    Variable,
    Odd,
}

impl From<u8> for Sort {
    ghost from_gives = { λ byte s. sorted s ≡ sort byte };

    fn from(byte: u8) -> Sort {
        match byte {
            9..=32 if byte == b'\t' || byte == b'\n' || byte == b'\r' || byte == b' ' => {
                Sort::Divider
            }
            40..=41 if byte == b'(' => Sort::Open,
            40..=41 => Sort::Close,
            33..=126 if byte != b';' && byte != b'?' => Sort::Word,
            33..=126 if byte == b';' => Sort::Comment,
            33..=126 => Sort::Variable,
            _ => Sort::Odd,
        }
    }
}

impl Sort {
    pub(crate) fn in_words(self) -> bool
        ensures { result ≡ in_words (sorted self) }
    {
        matches!(self, Sort::Word | Sort::Variable)
    }
}
