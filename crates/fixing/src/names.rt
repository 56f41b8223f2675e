// A fixing's steps by name.
ghost use Rattle.std.specs.Prelude.{◌≡◌};
ghost use Rattle.fixing.specs.Names.{step_name};

// The name of a row, counted from 1; a function and no `Display`, since printing has no contract.
pub fn step_name(row: u32) -> &'static str
    ensures { result.now ≡ step_name row }
{
    match row {
        1 => "feed",
        2 => "parser",
        3 => "curve",
        4 => "pricer",
        5 => "cell",
        _ => "further step",
    }
}
