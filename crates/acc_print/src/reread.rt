//! A body that is printed and read again.
ghost use Rattle.std.specs.Prelude.{◌≡◌, false, IfOk};
ghost use Rattle.acc_lang.specs.Texts.{has_text_value};

use crate::laws::canonical_text_is_read;
use crate::print;
use acc_base::OutOfMemory;
use acc_lang::{LangError, parse, parse_v2};
use acc_txn::Body;
use std::alloc::Global;

/// Prints a body without text values and reads its text in version 1, which gives the body again.
pub fn print_and_parse(alloc: Global, body: &Body) -> Result<Body, OutOfMemory>
    requires { has_text_value body.now ≡ false }
    ensures { IfOk result (λ again. again ≡ body.now) }
{
    canonical_text_is_read(body);
    let text = print(alloc, body)?;
    let Ok(text) = std::str::from_utf8(text.as_slice()) else {
        unreachable!()
    };
    match parse(alloc, text) {
        Ok(again) => Ok(again),
        Err(LangError::OutOfMemory) => Err(OutOfMemory),
        Err(LangError::At { .. }) => unreachable!(),
    }
}

/// Prints a body and reads its text in version 2, which gives the body again.
pub fn print_and_parse_v2(alloc: Global, body: &Body) -> Result<Body, OutOfMemory>
    ensures { IfOk result (λ again. again ≡ body.now) }
{
    canonical_text_is_read(body);
    let text = print(alloc, body)?;
    let Ok(text) = std::str::from_utf8(text.as_slice()) else {
        unreachable!()
    };
    match parse_v2(alloc, text) {
        Ok(again) => Ok(again),
        Err(LangError::OutOfMemory) => Err(OutOfMemory),
        Err(LangError::At { .. }) => unreachable!(),
    }
}
