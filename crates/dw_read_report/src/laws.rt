//! Laws about reports that are read: calls that do nothing, whose contracts speak of every text and every journal.
ghost use Rattle.std.specs.Prelude.{◌≡◌, ◌++◌, ℕ, List as Items, Ok, Some, decimal, true};
ghost use Rattle.std.specs.List.{AllByRecursion};
ghost use Rattle.std.specs.Str.{IsUtf8};
ghost use Rattle.dw_model.specs.Databases.{Tables};
ghost use Rattle.dw_journal.specs.declared.Journal.{Journal as Events};
ghost use Rattle.dw_journal.specs.declared.Shape.{Shape as WarehouseShape};
ghost use Rattle.dw_journal.specs.declared.World.{World as Beside};
ghost use Rattle.dw_journal.specs.Legal.{IsLegal};
ghost use Rattle.dw_value.specs.declared.values.Field.{Field as Shown};
ghost use Rattle.dw_print.specs.Events.{journal_lines};
ghost use Rattle.dw_print.specs.Fields.{field, numbers_text, shown_field};
ghost use Rattle.dw_print.specs.Report.{header, report_of, serial_line};
ghost use Rattle.dw_print.specs.Rows.{fields_line, names_line};
ghost use Rattle.dw_print.specs.Tables.{tables_lines};
ghost use Rattle.dw_print.specs.Typed.{IsShort, IsTypedField};
ghost use Rattle.dw_read_report.specs.Items.{EachHasItems};
ghost use Rattle.dw_read_report.specs.Readable.{AreReadable, HasReportWords, IsFromTo, IsReadable, IsWithinLimits};
ghost use Rattle.dw_read_report.specs.Reading.{names_at, number_at, row_at, sessions_at, shown_at, text_at};
ghost use Rattle.dw_read_report.specs.ReportReading.{ends_journal, journal_at, shape_at};

/// What is read stands at the front of the bytes just as it is printed, and it fits: numbers, names, fields and lists of
/// sessions, the lines of an answer's names and rows, and the first line of a report.
pub fn read_parts_are_printed()
    ensures numbers { (least most number : ℕ) (bytes rest : Items ℕ) → number_at least most bytes ≡ Some (number, rest) →
        (bytes ≡ decimal number ++ rest) × IsFromTo least most number }
    ensures texts { (bytes rest text : Items ℕ) → text_at bytes ≡ Some (text, rest) →
        (bytes ≡ field text ++ rest) × IsUtf8 text }
    ensures fields { (bytes rest : Items ℕ) (shown : Shown) → shown_at bytes ≡ Some (shown, rest) →
        (bytes ≡ shown_field shown ++ rest) × IsTypedField shown }
    ensures sessions { (bytes rest sessions : Items ℕ) → sessions_at bytes ≡ Some (sessions, rest) →
        (bytes ≡ numbers_text sessions ++ rest) × AllByRecursion IsShort sessions }
    ensures names { (bytes rest : Items ℕ) (names : Items (Items ℕ)) → names_at bytes ≡ Some (names, rest) →
        (bytes ≡ names_line names ++ rest) × AreReadable IsUtf8 names }
    ensures rows { (bytes rest : Items ℕ) (row : Items Shown) → row_at bytes ≡ Some (row, rest) →
        (bytes ≡ fields_line row ++ rest) × AreReadable IsTypedField row }
    ensures shape { (bytes rest : Items ℕ) (shape : WarehouseShape) → shape_at bytes ≡ Some (shape, rest) →
        (bytes ≡ header shape ++ rest) × IsWithinLimits shape }
{}

/// The report of each readable journal, beside whatever tables and stamps, is read back to that journal, and the lines
/// of the tables and the serial line are left. So are its first line and its events read back before any other bytes
/// that are none or begin with `tables`.
pub fn printed_reports_are_read()
    ensures reports { (journal : Events) (tables : Tables) (stamps : Items ℕ) → IsReadable journal →
        journal_at (report_of journal tables stamps) ≡ Ok (journal, tables_lines tables ++ serial_line stamps) }
    ensures journals { (journal : Events) (rest : Items ℕ) → IsReadable journal → ends_journal rest ≡ true →
        journal_at (header journal.shape ++ journal_lines 1 journal.events ++ rest) ≡ Ok (journal, rest) }
{}

/// Two readable journals are equal where their lines, each before bytes that are none or begin with `tables`, are the
/// same bytes; and so are the bytes after their lines.
pub fn one_reading()
    ensures { (a b : Events) (x y : Items ℕ) → IsReadable a → IsReadable b →
        ends_journal x ≡ true → ends_journal y ≡ true →
        header a.shape ++ journal_lines 1 a.events ++ x ≡ header b.shape ++ journal_lines 1 b.events ++ y →
        (a ≡ b) × (x ≡ y) }
{}

/// The answers of a legal journal have the words of their forms, and those with rows have names and fields, where each
/// SELECT of the scripts has an item; and what passes has the words of a statement that may have nothing to do. So a legal
/// journal of such scripts is readable where its numbers and texts are of the types of their fields, and its shape is
/// within its limits.
pub fn legal_answers_have_words()
    ensures { (world : Beside) (journal : Events) → EachHasItems world → IsLegal world journal → HasReportWords journal }
{}
