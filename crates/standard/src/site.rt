// A site, accepted.
ghost use Rattle.std.specs.Prelude.{◌≡◌, true};
ghost use Rattle.standard.specs.Sites.{lawful};

use crate::terms::SiteTerms;

mod accept;

// A site that exists is one whose values are all listed and within range.
#[derive(Clone, Copy, PartialEq, Eq, Debug)]
pub struct Site {
    pub terms: SiteTerms,
    ghost accepted: { lawful terms ≡ true },
}
