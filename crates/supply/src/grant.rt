// What a supply answers to a tick.
ghost use Rattle.std.specs.Prelude.{◌≡◌};
ghost use Rattle.supply.specs.Grants.{grant};

#[derive(Clone, Copy, PartialEq, Eq, Debug)]
pub enum Grant {
    Withheld,
    Granted,
}

impl From<bool> for Grant {
    ghost from_gives = { λ granted g. g ≡ grant granted };

    fn from(granted: bool) -> Grant {
        if granted {
            Grant::Granted
        } else {
            Grant::Withheld
        }
    }
}
