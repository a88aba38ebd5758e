ghost use Rattle.std.specs.Prelude.{◌≡◌};

// A storey's value in one mode, with the period of that mode.
#[derive(Clone, Copy, Default)]
pub struct Response {
    pub period: u16,
    pub value: i32,
}

impl Response {
    ghost use Rattle.combination.specs.Values.{size};

    // How large the value is, whatever its sign.
    pub(crate) fn size(&self) -> u32
        ensures { result ≡ size self.now }
    {
        self.value.unsigned_abs()
    }
}
