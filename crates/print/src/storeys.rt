ghost use Rattle.std.specs.Prelude.{◌≤◌, length};

// What is printed of a storey: its design shear and its force.
#[derive(Clone, Copy, Default)]
pub struct Figures {
    pub design: u64,
    pub force: i64,
}

// The figures of the storeys, lowest first; of no storey, that no forces stand.
#[derive(Clone, Copy)]
pub struct Storeys<'a> {
    pub figures: &'a [Figures],
    ghost few: { length figures.now ≤ 40 },
}
