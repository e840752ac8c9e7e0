//! Laws about journals: calls that do nothing, whose contracts speak of every journal.
ghost use Rattle.std.specs.Prelude.{◌≡◌, ◌≤◌, ◌<◌, ◌+◌, [], ◌∷◌, ◌++◌, ℕ, suc, true, false, List as Items, length, reverse, codes, Some, None, IsPermutation};
ghost use Rattle.dw_model.specs.declared.statements.Statement.{Statement};
ghost use Rattle.dw_model.specs.declared.objects.Object.{Object};
ghost use Rattle.dw_model.specs.Databases.{Tables};
ghost use Rattle.dw_model.specs.Files.{Files};
ghost use Rattle.dw_model.specs.Objects.{is_among, SameAt, SameAtAll};
ghost use Rattle.dw_journal.specs.declared.Certified.{Certified as Mark};
ghost use Rattle.dw_journal.specs.declared.Event.{Event as Happened};
ghost use Rattle.dw_journal.specs.declared.Journal.{Journal as Events};
ghost use Rattle.dw_journal.specs.declared.World.{World as Beside};
ghost use Rattle.dw_journal.specs.Transactions.{commits, committed};
ghost use Rattle.dw_journal.specs.Contents.{Effect, after_commit, def_after, rows_after, contents_at, replies_of, changes_of, view_after, reads_in, writes_in};
ghost use Rattle.dw_model.specs.declared.objects.Object.TheVariants.{Rows};
ghost use Rattle.dw_journal.specs.declared.Event.TheVariants as event;
ghost use Rattle.dw_journal.specs.declared.Taken.{Taken as Took};
ghost use Rattle.dw_model.specs.Databases.{def_of, rows_of};
ghost use Rattle.dw_journal.specs.History.{History as Before, events_of, is_of, session_of, with_event};
ghost use Rattle.dw_journal.specs.Progress.{events_left, waits_or_sweeps};
ghost use Rattle.dw_journal.specs.Attained.{IsLeastLow, IsGreatestStamp};
ghost use Rattle.dw_journal.specs.Decisions.{HasToDecide, DecidesExactly};
ghost use Rattle.dw_journal.specs.Serial.{AreInOrder, serial_order};
ghost use Rattle.dw_journal.specs.Watermarks.{counts_for_high, high_watermark, low_watermark, overlaps, violated_object};
ghost use Rattle.dw_journal.specs.Locks.{blockers, deadlock_cycle};
ghost use Rattle.dw_journal.specs.Examples.{certified_all, lows, highs, order, write_skew, skewed, lost_update, lost, reader_before_writer, three_sessions, crossed_wants, first_locks, one_waits, locks_at};
ghost use Rattle.dw_journal.specs.Edges.{IsCertified};
ghost use Rattle.dw_journal.specs.Follows.{Follows, FollowsAfter};
ghost use Rattle.dw_journal.specs.Worlds.{session_count};
ghost use Rattle.dw_journal.specs.Legal.{IsLegal};
ghost use Rattle.dw_journal.specs.Driven.{Move, AreOfSessions, IsDriven, WithoutMemory};

/// A journal that arises from a schedule is legal, and it follows from the scripts where its shape has a session for
/// each of them.
pub fn driven_is_legal()
    ensures legal { (world : Beside) (moves : Items Move) (journal : Events) →
        IsDriven world moves journal → IsLegal world journal }
    ensures follows { (world : Beside) (moves : Items Move) (journal : Events) →
        journal.shape.sessions ≡ session_count world → IsDriven world moves journal → Follows world journal }
{}

/// What was committed stands: the contents after some commits don't change when more events come.
pub fn contents_stand()
    ensures { (world : Beside) (newer older : Items Happened) (count : ℕ) → count ≤ commits older →
        contents_at world (newer ++ older) count ≡ contents_at world older count }
{}

/// The edge lemma of Serial Safety Net, over a list of certified commits, newest first. Of two transactions the earlier
/// one has to come first where it wrote what the later one read within its snapshot, or wrote or read what the later
/// one wrote: then its low watermark is at most its stamp, this is at most the later one's high watermark, and that is
/// below the later one's low watermark. The later one has to come first where it read what the earlier one overwrote
/// after its snapshot: then its low watermark is at most the earlier one's. Of two writers of an object the earlier
/// commit has the lower low watermark, so that along them serial order is commit order.
pub fn edges_rise()
    ensures forward { (later earlier : Mark) (between older : Items Mark) → IsCertified (later ∷ between ++ earlier ∷ older) →
        counts_for_high (length older + 1) later.taken earlier ≡ true →
        (earlier.low ≤ length older + 1) × (length older + 1 ≤ high_watermark later.taken (between ++ earlier ∷ older))
        × (high_watermark later.taken (between ++ earlier ∷ older) < later.low) }
    ensures backward { (later earlier : Mark) (between older : Items Mark) → IsCertified (later ∷ between ++ earlier ∷ older) →
        later.taken.snapshot < length older + 1 → overlaps earlier.taken.writes later.taken.reads ≡ true →
        later.low ≤ earlier.low }
    ensures writers { (later earlier : Mark) (between older : Items Mark) → IsCertified (later ∷ between ++ earlier ∷ older) →
        overlaps earlier.taken.writes later.taken.writes ≡ true → earlier.low < later.low }
{}

/// A schedule has one journal, but for want of memory: two journals that arise from the same moves in a warehouse of
/// one shape, and in which no statement is refused for want of memory, have the same events.
pub fn one_driven_journal()
    ensures { (world : Beside) (moves : Items Move) (a b : Events) → a.shape ≡ b.shape → AreOfSessions moves →
        IsDriven world moves a → IsDriven world moves b → WithoutMemory (events_of a) → WithoutMemory (events_of b) →
        a.events ≡ b.events }
{}

/// Worked examples: the low and high watermarks and the serial orders that the definitions give for some transactions,
/// and who waits for whom where two sessions lock two tables in opposite order.
pub fn worked_examples()
    ensures write_skew { (lows write_skew ≡ 1 ∷ 2 ∷ 3 ∷ []) × (highs write_skew ≡ 0 ∷ 0 ∷ 2 ∷ []) }
    ensures skewed { (low_watermark skewed (certified_all (reverse write_skew)) ≡ 3)
        × (high_watermark skewed (certified_all (reverse write_skew)) ≡ 3)
        × (violated_object skewed (certified_all (reverse write_skew)) ≡ Some (Rows (codes "b"))) }
    ensures lost_update { (lows lost_update ≡ 1 ∷ 2 ∷ 3 ∷ []) × (highs lost_update ≡ 0 ∷ 1 ∷ 2 ∷ [])
        × (order lost_update ≡ 1 ∷ 2 ∷ 3 ∷ []) }
    ensures lost { (low_watermark lost (certified_all (reverse lost_update)) ≡ 3)
        × (high_watermark lost (certified_all (reverse lost_update)) ≡ 3)
        × (violated_object lost (certified_all (reverse lost_update)) ≡ Some (Rows (codes "t"))) }
    ensures reader_before_writer { (lows reader_before_writer ≡ 1 ∷ 2 ∷ 3 ∷ 3 ∷ [])
        × (highs reader_before_writer ≡ 0 ∷ 0 ∷ 1 ∷ 1 ∷ []) × (order reader_before_writer ≡ 1 ∷ 2 ∷ 4 ∷ 3 ∷ []) }
    ensures three_sessions { (lows three_sessions ≡ 1 ∷ 2 ∷ 3 ∷ 4 ∷ 5 ∷ 4 ∷ 4 ∷ [])
        × (highs three_sessions ≡ 0 ∷ 0 ∷ 0 ∷ 1 ∷ 3 ∷ 2 ∷ 2 ∷ [])
        × (order three_sessions ≡ 1 ∷ 2 ∷ 3 ∷ 7 ∷ 6 ∷ 4 ∷ 5 ∷ []) }
    ensures waits { (blockers (locks_at first_locks) 1 (crossed_wants 1 5) ≡ 2 ∷ [])
        × (deadlock_cycle (locks_at first_locks) 1 (crossed_wants 1 5) ≡ None) }
    ensures deadlock { (blockers (locks_at one_waits) 2 (crossed_wants 2 3) ≡ 1 ∷ [])
        × (deadlock_cycle (locks_at one_waits) 2 (crossed_wants 2 3) ≡ Some (2 ∷ 1 ∷ [])) }
{}

/// The frame of a transaction, whose statements are run one after another on what the ones before left. Where two
/// databases have the same of all objects that it reads, its statements reply the same and change the same, and each
/// further object that is the same is so afterwards. An object that it doesn't write stays.
pub fn transactions_have_a_frame()
    ensures replies { (files : Files) (statements : Items Statement) (a b : Tables) →
        SameAtAll a b (reads_in statements) → replies_of files statements a ≡ replies_of files statements b }
    ensures changes { (files : Files) (statements : Items Statement) (a b : Tables) →
        SameAtAll a b (reads_in statements) → changes_of files statements a ≡ changes_of files statements b }
    ensures read { (files : Files) (statements : Items Statement) (a b : Tables) (object : Object) →
        SameAtAll a b (reads_in statements) → SameAt a b object →
        SameAt (view_after files a statements) (view_after files b statements) object }
    ensures unwritten { (files : Files) (statements : Items Statement) (a : Tables) (object : Object) →
        is_among object (writes_in statements) ≡ false → SameAt a (view_after files a statements) object }
{}

/// A violation stands exactly where it is due. In a legal journal the event at a decision, which is an answered
/// statement outside a block, or the COMMIT of a block in which a transaction is open, is a violation where the low
/// watermark is at most the high one, and else the commit or its refusal for want of memory. Nowhere else stands a
/// violation.
pub fn violations_are_exact()
    ensures decided { (world : Beside) (journal : Events) (newer older : Items Happened) (event : Happened) (session : ℕ) →
        IsLegal world journal → events_of journal ≡ newer ++ event ∷ older → session_of event ≡ Some session →
        HasToDecide (record { shape = journal.shape; world = world; events = older }) session →
        DecidesExactly (record { shape = journal.shape; world = world; events = older }) session event }
    ensures only { (world : Beside) (journal : Events) (newer older : Items Happened) (session k low high : ℕ) (object : Object) →
        IsLegal world journal → events_of journal ≡ newer ++ event.Violation session k low high object ∷ older →
        HasToDecide (record { shape = journal.shape; world = world; events = older }) session }
{}

/// What the watermarks are, said from outside. The low one is the transaction's own stamp or the low watermark of a
/// commit that counts for it, and at most all of these; the high one is 0 or the stamp of a commit that counts, and at
/// least all.
pub fn watermarks_are_attained()
    ensures low { (taken : Took) (commits : Items Mark) → IsLeastLow taken commits (low_watermark taken commits) }
    ensures high { (taken : Took) (commits : Items Mark) → IsGreatestStamp taken commits (high_watermark taken commits) }
{}

/// The serial order of a journal has each committed transaction once, and none comes before one that stands before it:
/// by low watermark ascending, the later commit first at equal ones.
pub fn serial_order_is_in_order()
    ensures same { (journal : Events) → IsPermutation (committed (events_of journal)) (serial_order journal) }
    ensures order { (journal : Events) → AreInOrder (serial_order journal) }
{}

/// What a commit leaves of each object, by three cases: what its transaction read and wrote is as in its view; rows
/// that it wrote without reading them are the former ones with those that it added; all else stays. A table without a
/// definition has no rows.
pub fn commits_leave_objects()
    ensures definitions { (effect : Effect) (before : Tables) (name : Items ℕ) →
        def_of (after_commit effect before) name ≡ def_after effect before name }
    ensures rows { (effect : Effect) (before : Tables) (name : Items ℕ) →
        (def_after effect before name ≡ None → rows_after effect before name ≡ []) →
        rows_of (after_commit effect before) name ≡ rows_after effect before name }
{}

/// Why a run ends: an event of a session that follows, and is no wait and of no vacuum, leaves it fewer events before
/// it, and leaves the other sessions as many as before.
pub fn events_bring_nearer_the_end()
    ensures own { (older : Before) (place : ℕ) (event : Happened) → session_of event ≡ Some (suc place) →
        waits_or_sweeps event ≡ false → FollowsAfter older event →
        events_left (with_event older event) (suc place) < events_left older (suc place) }
    ensures others { (older : Before) (place : ℕ) (event : Happened) → is_of (suc place) event ≡ false →
        events_left (with_event older event) (suc place) ≡ events_left older (suc place) }
{}
