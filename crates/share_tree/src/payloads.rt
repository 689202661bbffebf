//! Shares of payloads, with the same meanings.
//!
//! Tested in `share_maps` and `test_share_guards/changes`.

ghost use Rattle.std.specs.Prelude.{◌≡◌, IfOk, option_copied};
ghost use Rattle.spec_olc.specs.Meaning.{in_some};

use spec_map::error::OOMError;
use spec_olc::payload::HasMeaning;

/// One more share of what was found, or `OOMError` if it is refused.
pub(crate) fn more<P: HasMeaning>(found: Option<&P>) -> Result<Option<P>, OOMError>
    ensures { IfOk result (λ copy. in_some P.meaning copy
        ≡ in_some P.meaning (option_copied found.entry)) }
{
    match found {
        None => Ok(None),
        Some(found) => Ok(Some(found.share()?)),
    }
}

/// One more share of an answer, or of the payload to store.
pub(crate) fn again<P: HasMeaning>(answer: &Option<P>) -> Result<Option<P>, OOMError>
    ensures { IfOk result (λ copy. in_some P.meaning copy ≡ in_some P.meaning answer.now) }
{
    match answer {
        None => Ok(None),
        Some(answer) => Ok(Some(answer.share()?)),
    }
}
