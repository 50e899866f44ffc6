// The table of the stages.
ghost use Rattle.std.specs.Prelude.{◌≡◌};
ghost use Rattle.sender_rules.specs.Hearing.{next_stage};

use sender_rules::Stage;

pub(crate) fn next_stage(stage: Stage) -> Stage
    ensures { result ≡ next_stage stage }
{
    match stage {
        Stage::Setup | Stage::Confirm => Stage::Frame,
        Stage::Frame | Stage::Back => Stage::Compare,
        Stage::Compare => Stage::Take,
        Stage::Take => Stage::Confirm,
    }
}
