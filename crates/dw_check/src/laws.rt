//! Laws about right reports: calls that do nothing, whose contracts speak of every journal and of all bytes.
ghost use Rattle.std.specs.Prelude.{ℕ, List as Items, map};
ghost use Rattle.dw_io.specs.Outside.{Held};
ghost use Rattle.dw_journal.specs.declared.Journal.{Journal as Events};
ghost use Rattle.dw_journal.specs.declared.World.{World as Beside};
ghost use Rattle.dw_journal.specs.Follows.{Follows};
ghost use Rattle.dw_journal.specs.Legal.{IsLegal};
ghost use Rattle.dw_journal.specs.Shapes.{standard_shape};
ghost use Rattle.dw_print.specs.Report.{report};
ghost use Rattle.dw_print.specs.Typed.{IsOfTypes};
ghost use Rattle.dw_read_report.specs.Items.{EachHasItems};
ghost use Rattle.dw_read_report.specs.Readable.{IsFromTo, IsReadable, IsWithinLimits};
ghost use Rattle.dw_script.specs.declared.status.Status.TheVariants.{Ok as Right};
ghost use Rattle.dw_input.specs.Scripts.{givens_of, world_of};
ghost use Rattle.dw_check.specs.Answers.{IsAnswer, IsDue};
ghost use Rattle.dw_check.specs.NamedReports.{NamesReport};

/// The report of a journal that is legal and follows from the scripts is answered as right where it is readable; and so
/// where each SELECT of the scripts has an item, the journal's numbers and texts are of the types of their fields, and
/// its shape is within the limits, as the standard one is for 1 to 64 sessions. So where words name the report of such a
/// journal and its scripts, it is due that it is right.
pub fn right_reports_are_due()
    ensures readable { (world : Beside) (journal : Events) → IsReadable journal → IsLegal world journal →
        Follows world journal → IsAnswer world (report world journal) Right }
    ensures answer { (world : Beside) (journal : Events) → EachHasItems world → IsOfTypes journal →
        IsWithinLimits journal.shape → IsLegal world journal → Follows world journal →
        IsAnswer world (report world journal) Right }
    ensures standard { (sessions : ℕ) → IsFromTo 1 64 sessions → IsWithinLimits (standard_shape sessions) }
    ensures due { (words : Items (Items ℕ)) (held : Held) → NamesReport words held → IsDue words held Right }
{}

/// Whatever bytes scripts are, each SELECT that is read in them has an item.
pub fn read_scripts_have_items()
    ensures { (scripts : Items (Items ℕ)) → EachHasItems (world_of (map givens_of scripts)) }
{}
