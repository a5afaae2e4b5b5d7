// Tokens written out as bytes.
ghost use Rattle.std.specs.Prelude.{false, map};
ghost use Rattle.definitions.specs.Writing.{spaced, spelt, Reread};
ghost use Rattle.text.specs.View.{token};
ghost use Rattle.text.specs.Output.{Appended, Grown};

use crate::token::Token;
use std::alloc::AllocError;

// One token, after a word or not.
fn put(t: Token, after: bool, out: &mut Vec<u8>) -> Result<(), AllocError>
    ensures { Grown result out.old.items out.new.items (spaced after (token t.entry)) }
{
    match t {
        Token::Open { at: _ } => out.push(b'(')?,
        Token::Close => out.push(b')')?,
        Token::Word { at: _, spelling } => {
            if after {
                out.push(b' ')?;
            }
            out.extend_from_slice(spelling)?;
        }
    }
    Ok(())
}

fn put_all(tokens: &[Token], out: &mut Vec<u8>) -> Result<(), AllocError>
    ensures { Grown result out.old.items out.new.items (spelt false (map token tokens.now)) }
{
    let mut after = false;
    for t in tokens {
        put(*t, after, out)?;
        after = t.is_word();
    }
    Ok(())
}

// Writes tokens at the end of `out`, with a space only between two words that would touch.
pub fn write(tokens: &[Token], out: &mut Vec<u8>) -> Result<(), AllocError>
    ensures value { Appended result out.old.items out.new.items (spelt false (map token tokens.now)) }
    ensures law { Reread }
{
    let len = out.len();
    let answer = put_all(tokens, out);
    if answer.is_err() {
        out.truncate(len);
    }
    answer
}
