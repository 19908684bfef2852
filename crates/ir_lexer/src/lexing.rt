//! From bytes to tokens.
ghost use Rattle.std.specs.Prelude.{◌≡◌, ℕ, List, IfOk, IfErr, length};
ghost use Rattle.std.specs.List.{All};
ghost use Rattle.ir_lexer.specs.declared.token.Token.{Token};
ghost use Rattle.ir_lexer.specs.Tokens.{Tokens, IsBadByte, IsCause, IsTokenIn, InOrder, Answers};

use crate::front::{front, gap_len};
use crate::token::{Kind, LexFault, Token};
use ir_types::List;
use std::alloc::Global;

/// The tokens of the text of a module, by the rules of the LLVM Language Reference Manual.
///
/// Blanks are space, tab, carriage return and line feed. A comment runs from `;` up to the next line
/// feed or the end. Between them the longest token is taken. A token's offsets count bytes of the
/// text, and the tokens come in the order of the text.
///
/// `BadByte` carries the least offset from which no token, no blank and no comment goes on.
/// `OutOfMemory` says that the allocator refused memory.
pub fn lex(alloc: Global, bytes: &[u8]) -> Result<List<Token>, LexFault>
    // The answer is the tokens of the text.
    ensures ok { IfOk result (λ ts. Tokens bytes.now ts) }
    // A fault other than want of memory carries the bad byte of the text.
    ensures err { IfErr result (IsCause bytes.now) }
    // Where the text has tokens, these are the answer, unless memory ran out.
    ensures tokens { (ts : List Token) → Tokens bytes.now ts → Answers result (Ok ts) }
    // Where the text has a bad byte, it is the answer, unless memory ran out.
    ensures bad_byte { (at : ℕ) → IsBadByte bytes.now at → Answers result (Err (LexFault.BadByte at)) }
    // Each token lies within the text, has one byte or more, and is spelled as its kind.
    ensures each { IfOk result (λ ts. All (IsTokenIn bytes.now) ts) }
    // No token begins before the one before it ends.
    ensures in_order { IfOk result (λ ts. InOrder 0 ts (length bytes.now)) }
{
    read_tokens(alloc, bytes)
}

fn read_tokens(alloc: Global, bytes: &[u8]) -> Result<List<Token>, LexFault>
    ensures ok { IfOk result (λ ts. Tokens bytes.now ts) }
    ensures err { IfErr result (IsCause bytes.now) }
{
    let mut tokens = List::new(alloc);
    let mut at = 0;
    let mut inside = false;
    while at < bytes.len() {
        let rest = &bytes[at..];
        let gap = gap_len(rest);
        if gap > 0 {
            at += gap;
            inside = false;
        } else {
            match front(rest, inside) {
                Some((kind, len)) => {
                    let to = at + len;
                    let token = Token { kind, from: at, to };
                    match tokens.push(token) {
                        Ok(()) => {}
                        Err(_) => return Err(LexFault::OutOfMemory),
                    }
                    at = to;
                    inside = matches!(kind, Kind::Int);
                }
                None => return Err(LexFault::BadByte { at }),
            }
        }
    }
    Ok(tokens)
}
