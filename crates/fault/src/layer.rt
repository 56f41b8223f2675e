// Who refuses.
ghost use Rattle.std.specs.Prelude.{◌≡◌};
ghost use Rattle.fault.specs.Layers.{layer_number};

// The layers, from the bytes up; a layer refuses only what the layers below it let pass.
#[derive(Clone, Copy, PartialEq, Eq, Debug)]
pub enum Layer {
    Text = 1,
    Supply = 2,
    Table = 3,
    Decision = 4,
    Run = 5,
}

impl Layer {
    // The layer's number in the table of faults.
    pub fn number(self) -> u32
        ensures { result ≡ layer_number self }
    {
        self as u32
    }
}
