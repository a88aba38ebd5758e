ghost use Rattle.combination.specs.Values.{Sound};

use crate::response::Response;

// A storey's modal values: at most nine, of falling periods, whose sizes add up to at most 10,000,000.
#[derive(Clone, Copy)]
pub struct Responses<'a> {
    pub items: &'a [Response],
    ghost sound: { Sound items.now },
}
