// The lines that say what a rules text holds, or what is wrong and where.
#![tactic(auto)]

ghost use Rattle.definitions.specs.Reading.{verdict};
ghost use Rattle.text.specs.Faults.{refusal};
ghost use Rattle.text.specs.Terms.{tree, trees};
ghost use Rattle.report.specs.Lines.{form_line, form_lines, refusal_line, lines, Added, Reported};

use std::alloc::AllocError;
use text::{Forms, Refusal, Term, Terms, write};

fn put_form(form: Term, out: &mut Vec<u8>) -> Result<(), AllocError>
    ensures { Added result out.old.items out.new.items (form_line (tree form.entry)) }
{
    let at = form.place();
    let number = format!(in *out.allocator(); "{at} ")?;
    out.extend_from_slice(number.as_bytes())?;
    write(form.tokens(), out)?;
    out.push(b'\n')?;
    Ok(())
}

#[tactic(auto, using(crate::proofs::Forms::line_by_line))]
fn put_forms(forms: Terms, out: &mut Vec<u8>) -> Result<(), AllocError>
    ensures { Added result out.old.items out.new.items (form_lines (trees forms.entry)) }
{
    for form in forms {
        put_form(form, out)?;
    }
    Ok(())
}

fn put_refusal(r: Refusal, out: &mut Vec<u8>) -> Result<(), AllocError>
    ensures { Added result out.old.items out.new.items (refusal_line (refusal r)) }
{
    let number = r.number;
    let at = r.place;
    let line = format!(in *out.allocator(); "! {number} {at}\n")?;
    out.extend_from_slice(line.as_bytes())
}

fn put_lines(text: &[u8], out: &mut Vec<u8>) -> Result<(), AllocError>
    ensures { Added result out.old.items out.new.items (lines (verdict text.now)) }
{
    let heap = *out.allocator();
    let mut forms = Forms::new(heap);
    match forms.read(heap, text) {
        Ok(()) => put_forms(forms.terms(), out),
        Err(fault) => put_refusal(fault.refusal()?, out),
    }
}

// Fills `out` with the lines of a text; where memory is wanting it is left empty.
pub fn report(text: &[u8], out: &mut Vec<u8>) -> Result<(), AllocError>
    ensures { Reported result out.new.items (lines (verdict text.now)) }
{
    out.clear();
    let answer = put_lines(text, out);
    if answer.is_err() {
        out.clear();
    }
    answer
}
