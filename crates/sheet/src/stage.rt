// The stage of a sheet.
ghost use Rattle.std.specs.Prelude.{◌≡◌};
ghost use Rattle.sheet.specs.Stages.{stage_after};

// A draft has no forces; after a run, the forces of its method stand.
#[derive(Clone, Copy)]
pub enum Stage {
    Draft,
    Static,
    Modal,
}

// What is done to a sheet.
#[derive(Clone, Copy)]
pub enum Action {
    Edit,
    RunStatic,
    RunModal,
}

impl Stage {
    // The next stage.
    pub(crate) fn after(self, action: Action) -> Stage
        ensures { result ≡ stage_after action }
    {
        match (self, action) {
            (Stage::Draft, Action::Edit) => Stage::Draft,
            (Stage::Static | Stage::Modal, Action::Edit) => Stage::Draft,
            (Stage::Static, Action::RunStatic) => Stage::Static,
            (Stage::Draft | Stage::Modal, Action::RunStatic) => Stage::Static,
            (Stage::Modal, Action::RunModal) => Stage::Modal,
            (Stage::Draft | Stage::Static, Action::RunModal) => Stage::Modal,
        }
    }
}
