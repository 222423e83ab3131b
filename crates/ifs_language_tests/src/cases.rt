//! Lists of cases. A case is a line `-- NAME`, a text of the language, and a line `=> WANTED`.

use crate::checks::same_in;
use std::process::Abort;
use std::test::Fail;

/// The name, the text and what is wanted of it, in a case from its name on.
fn parts_of(case: &str) -> Option<(&str, &str, &str)> {
    let (name, rest) = case.split_once('\n')?;
    let (text, wanted) = rest.split_once("=>")?;
    let text = text.strip_suffix('\n').unwrap_or(text);
    Some((name, text, wanted.trim()))
}

/// Asserts what `tell` says of the text of each case. Blanks at its end do not count.
pub fn check_cases<F: Fn(&str) -> Result<String, Fail>>(
    rt: &impl Abort,
    list: &str,
    tell: F,
) -> Result<(), Fail>
    requires { F.IsAlwaysCallable tell }
{
    for case in list.split("-- ").skip(1) {
        let (name, text, wanted) = parts_of(case).ok_or("the parts of a case")?;
        same_in(rt, name, tell(text)?.as_str().trim_end(), wanted);
    }
    Ok(())
}
