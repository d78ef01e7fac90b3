// The worked figures that are proved.
ghost use Rattle.std.specs.Prelude.{◌≡◌, length};
ghost use Rattle.figures.specs.Figures.{figures, Follow};

/// How many figures the table of proved ones has, all of which follow from the definitions.
pub fn proved_figures() -> usize
    ensures follow { Follow figures }
    ensures count { result ≡ length figures }
{
    7
}
