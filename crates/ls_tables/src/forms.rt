//! Form texts and decimals of thousandths.
use crate::failed::Failed;
use crate::words::number;
use ls_form::{FormRefused, Params, pairs, print_milli};
use std::alloc::Global;

/// The pairs of a form text, or their number alone.
pub fn form(alloc: Global, input: &[u8], counts: bool) -> Result<String, Failed> {
    let (cause, at) = match pairs(alloc, input) {
        Ok(params) if counts => return Ok(format!(in alloc; "{}", params.len())?),
        Ok(params) => return pairs_text(alloc, &params),
        Err(FormRefused::TooLong { n }) => ("long", n),
        Err(FormRefused::NotUtf8 { at }) => ("bytes", at),
        Err(FormRefused::Twice { at }) => ("twice", at),
        Err(FormRefused::NoMemory) => return Err(Failed::NoMemory),
    };
    Ok(format!(in alloc; "{cause} {at}")?)
}

/// Pairs as `name=text` with `;` behind each.
pub fn pairs_text(alloc: Global, params: &Params) -> Result<String, Failed> {
    let mut text = String::new(alloc);
    for place in 0..params.len() {
        if let Some(pair) = params.get(place) {
            write!(text, "{}={};", pair.name.as_str(), pair.text.as_str())?;
        }
    }
    Ok(text)
}

/// The decimal of thousandths.
pub fn decimal(alloc: Global, input: &[u8]) -> Result<String, Failed> {
    let text = print_milli(alloc, number(input)?)?;
    Ok(String::from_str(alloc, crate::words::word(text.as_slice())?)?)
}
