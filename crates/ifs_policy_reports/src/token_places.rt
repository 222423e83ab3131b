//! Places of tokens in reports.

use ifs_policy_text::{Other, Spot, TokenizedPolicy};
use ifs_report::Draft;
use std::alloc::{AllocError, Global};

/// A report that names tokens of a policy.
pub(crate) trait NamesTokens {
    /// Adds the place where the token with this number itself is.
    fn label_token(
        &mut self,
        alloc: Global,
        policy: &TokenizedPolicy<'_>,
        index: usize,
        words: &'static str,
    );

    /// Takes the place of a token, and adds its other place. `value` says what the value of a macro is.
    fn put_spot(&mut self, spot: Spot, value: &'static str);

    /// Takes the place of the token with this number, if there is one.
    fn put_token(
        &mut self,
        alloc: Global,
        policy: &TokenizedPolicy<'_>,
        index: Option<usize>,
        value: &'static str,
    );

    /// The same, but takes the place of the use of the macro that brought the token there, if one did.
    fn put_use(
        &mut self,
        alloc: Global,
        policy: &TokenizedPolicy<'_>,
        index: Option<usize>,
        value: &'static str,
    );
}

impl NamesTokens for Draft {
    fn label_token(
        &mut self,
        alloc: Global,
        policy: &TokenizedPolicy<'_>,
        index: usize,
        words: &'static str,
    ) {
        match policy.origin(alloc, index) {
            Ok(place) => self.label(place, words),
            Err(AllocError) => self.fail(),
        }
    }

    fn put_spot(&mut self, spot: Spot, value: &'static str) {
        self.at(spot.place);
        match spot.other {
            Some(Other::Use(place)) => self.label(place, "used here"),
            Some(Other::Value(place)) => self.label(place, value),
            None => {}
        }
    }

    fn put_token(
        &mut self,
        alloc: Global,
        policy: &TokenizedPolicy<'_>,
        index: Option<usize>,
        value: &'static str,
    ) {
        let Some(index) = index else {
            return;
        };
        match policy.spot(alloc, index) {
            Ok(spot) => self.put_spot(spot, value),
            Err(AllocError) => self.fail(),
        }
    }

    fn put_use(
        &mut self,
        alloc: Global,
        policy: &TokenizedPolicy<'_>,
        index: Option<usize>,
        value: &'static str,
    ) {
        let Some(index) = index else {
            return;
        };
        match policy.spot(alloc, index) {
            Ok(spot) => self.put_spot(spot.at_use(), value),
            Err(AllocError) => self.fail(),
        }
    }
}
