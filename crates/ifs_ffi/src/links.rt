//! Links that are given beside policies.

ghost use Rattle.std.specs.Prelude.{◌≡◌, ◌⊎◌, IfErr};

use crate::status::{NO_LINKS, OUT_OF_MEMORY};
use ifs_base::LinkState;
use ifs_command_line::link_of;
use std::alloc::Global;
use std::str::from_utf8;

/// The links that bytes give: words `NAME STATE`, each with a NUL behind it. The error is the status of a call with these bytes.
pub(crate) fn links_of(alloc: Global, bytes: &[u8]) -> Result<Vec<(&str, LinkState)>, u32>
    ensures status { IfErr result (λ status. (status ≡ 2) ⊎ (status ≡ 7)) }
{
    let mut links = Vec::new(alloc);
    let words = match from_utf8(bytes) {
        Ok("") => return Ok(links),
        Ok(text) => text.strip_suffix('\0'),
        Err(_error) => None,
    };
    let Some(words) = words else {
        return Err(NO_LINKS);
    };
    for word in words.split('\0') {
        let Some(link) = link_of(word) else {
            return Err(NO_LINKS);
        };
        let Ok(()) = links.push(link) else {
            return Err(OUT_OF_MEMORY);
        };
    }
    Ok(links)
}
