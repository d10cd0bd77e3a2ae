//! Records that are kept are a log of the rules, and what holds of that log holds of them: laws, each the contract of a
//! function that does nothing.

ghost use Rattle.std.specs.Prelude.{◌≡◌, ℕ, Bool, true, false, List, [], ◌∷◌, ◌++◌, map, length};
ghost use Rattle.gr_causal.specs.Dependence.{dependents, kept, causes, Depends, IsClosedPart, AreTheOthers};
ghost use Rattle.gr_causal.specs.Machine.{IsLog};
ghost use Rattle.gr_causal.specs.Orders.{IsOrder};
ghost use Rattle.gr_causal.specs.Sequences.{In, Distinct};
ghost use Rattle.gr_program.specs.Programs.{Program};
ghost use Rattle.gr_rules.specs.States.{start};
ghost use Rattle.gr_rules.specs.Steps.{machine};
ghost use Rattle.gr_laws.specs.Dependence.{clash};
ghost use Rattle.gr_laws.specs.Reached.{Logged, IsRun};
ghost use Rattle.gr_refine.specs.Contents.{Contents};
ghost use Rattle.gr_record.specs.Conflicts.{touched_by, conflict_of};
ghost use Rattle.gr_record.specs.declared.record.Record.{Record};
ghost use Rattle.gr_record.specs.Kept.{Kept, Tells};
ghost use Rattle.gr_record.specs.Listings.{state_in};
ghost use Rattle.gr_record.specs.Running.{Running};
ghost use Rattle.gr_record.specs.Records.{taken_back, CanGoBack};
ghost use Rattle.gr_record.specs.Back.{all_back, marked, unmarked, AreFree};
ghost use Rattle.gr_record.specs.Pairs.{records_in, steps_in, clash_in, AreOf};

/// A record tells the touches of its step, no object twice: so two records tell whether their steps conflict.
pub fn law_of_conflicts()
    ensures once { (p : Program) (s t : Contents) (a : Record) (k : Logged p)
        → Tells p s a k t
        → Distinct (touched_by a) }
    ensures conflicts { (p : Program) (s t u v : Contents) (a b : Record) (k l : Logged p)
        → Tells p s a k t → Tells p u b l v
        → conflict_of a b ≡ clash p k l }
{}

/// Two steps follow each other and do not conflict. Then the first goes back behind the second, which leaves the second alone,
/// and from there the first leads to where both led.
pub fn law_of_neighbours()
    ensures { (p : Program) (s m t : Contents) (a b : Record) (k l : Logged p)
        → Running p s → Tells p s a k m → Tells p m b l t → clash p k l ≡ false
        → let u = taken_back a.id.go a.change t in
        Tells p s b l u × Tells p u a k t }
{}

/// A step with which no later step conflicts goes back from the middle, and the others are kept. The steps tell whether they
/// conflict, and so do their records.
pub fn law_of_the_middle()
    ensures records { (p : Program) (s t : Contents) (front back : List Record) (r : Record) (kept later : List (Logged p))
        (k : Logged p)
        → Running p s → length front ≡ length kept
        → Kept p s (front ++ r ∷ back) (kept ++ k ∷ later) t
        → ((b : Record) → In b back → conflict_of r b ≡ false)
        → CanGoBack r.id.go r.change t × Kept p s (front ++ back) (kept ++ later) (taken_back r.id.go r.change t) }
    ensures steps { (p : Program) (s t : Contents) (front back : List Record) (r : Record) (kept later : List (Logged p))
        (k : Logged p)
        → Running p s → length front ≡ length kept
        → Kept p s (front ++ r ∷ back) (kept ++ k ∷ later) t
        → ((l : Logged p) → In l later → clash p k l ≡ false)
        → CanGoBack r.id.go r.change t × Kept p s (front ++ back) (kept ++ later) (taken_back r.id.go r.change t) }
{}

/// Records in another order that respects dependence are kept, as steps in an order that respects dependence, and lead to the
/// same contents. The order is one of records, or one of records with their steps. No record stands twice.
pub fn law_of_rearranging()
    ensures once { (p : Program) (s t : Contents) (records : List Record) (log : List (Logged p))
        → Running p s → Kept p s records log t
        → Distinct records }
    ensures records { (p : Program) (s t : Contents) (old new : List Record) (log : List (Logged p))
        → Running p s → Kept p s old log t → IsOrder conflict_of old new
        → (steps : List (Logged p)) × IsOrder (clash p) log steps × Kept p s new steps t }
    ensures pairs { (p : Program) (s t : Contents) (old new : List (Record × Logged p))
        → Running p s → Kept p s (records_in p old) (steps_in p old) t → IsOrder (clash_in p) old new
        → Kept p s (records_in p new) (steps_in p new) t }
{}

/// The last step goes back, and the others are kept.
pub fn law_of_undoing()
    ensures { (p : Program) (s t : Contents) (records : List Record) (r : Record) (log : List (Logged p)) (k : Logged p)
        → Kept p s (records ++ r ∷ []) (log ++ k ∷ []) t
        → CanGoBack r.id.go r.change t × Kept p s records log (taken_back r.id.go r.change t) }
{}

/// Records are as many as their steps, which are a log: from the start of the program a run. A run of the program leads to
/// where they lead.
pub fn law_of_the_log()
    ensures lengths { (p : Program) (s t : Contents) (records : List Record) (log : List (Logged p))
        → Kept p s records log t
        → length records ≡ length log }
    ensures log { (p : Program) (s t : Contents) (records : List Record) (log : List (Logged p))
        → Kept p s records log t
        → IsLog (machine p) (state_in p s) log (state_in p t) }
    ensures run { (p : Program) (s t : Contents) (records : List Record) (log : List (Logged p))
        → state_in p s ≡ start p → Kept p s records log t
        → IsRun p log (state_in p t) }
    ensures running { (p : Program) (s t : Contents) (records : List Record) (log : List (Logged p))
        → Running p s → Kept p s records log t
        → Running p t }
{}

/// Records that are kept stand beside their steps in a list of pairs. Records, steps and pairs agree on which of them depend on
/// a step, which do not, and which caused it.
pub fn law_of_consequences()
    ensures pairs { (p : Program) (s t : Contents) (records : List Record) (log : List (Logged p))
        → Kept p s records log t
        → (steps : List (Record × Logged p)) × AreOf p steps records log }
    ensures gone { (p : Program) (s t : Contents) (steps : List (Record × Logged p)) (i : ℕ)
        → Kept p s (records_in p steps) (steps_in p steps) t
        → AreOf p (dependents (clash_in p) steps i) (dependents conflict_of (records_in p steps) i)
        (dependents (clash p) (steps_in p steps) i) }
    ensures others { (p : Program) (s t : Contents) (steps : List (Record × Logged p)) (i : ℕ)
        → Kept p s (records_in p steps) (steps_in p steps) t
        → AreOf p (kept (clash_in p) steps i) (kept conflict_of (records_in p steps) i) (kept (clash p) (steps_in p steps) i) }
    ensures caused { (p : Program) (s t : Contents) (steps : List (Record × Logged p)) (i : ℕ)
        → Kept p s (records_in p steps) (steps_in p steps) t
        → AreOf p (causes (clash_in p) steps i) (causes conflict_of (records_in p steps) i)
        (causes (clash p) (steps_in p steps) i) }
{}

/// Rollback of a step with its consequences, by the records: each of them can go back when those behind it are back. When all are
/// back the other records are kept, and the consequences go again from there. It may stop on its way, and any part of the log
/// with all its consequences goes back so.
pub fn law_of_back()
    ensures each { (p : Program) (s t : Contents) (records left gone : List Record) (r : Record) (log : List (Logged p)) (i : ℕ)
        → Running p s → Kept p s records log t
        → dependents conflict_of records i ≡ left ++ r ∷ gone
        → CanGoBack r.id.go r.change (all_back gone t) }
    ensures whole { (p : Program) (s t : Contents) (records : List Record) (log : List (Logged p)) (i : ℕ)
        → Running p s → Kept p s records log t
        → let u = all_back (dependents conflict_of records i) t in
        Kept p s (kept conflict_of records i) (kept (clash p) log i) u
        × Kept p u (dependents conflict_of records i) (dependents (clash p) log i) t }
    ensures stopped { (p : Program) (s t : Contents) (records left gone stay : List Record) (log : List (Logged p)) (i : ℕ)
        → Running p s → Kept p s records log t
        → dependents conflict_of records i ≡ left ++ gone → AreTheOthers records gone stay
        → let u = all_back gone t in
        (later : List (Logged p)) × (steps : List (Logged p))
        × AreTheOthers log later steps × Kept p s stay steps u × Kept p u gone later t
        × ((before : List (Logged p)) × (dependents (clash p) log i ≡ before ++ later)) }
    ensures closed { (p : Program) (s t : Contents) (steps gone stay : List (Record × Logged p))
        → Running p s → Kept p s (records_in p steps) (steps_in p steps) t
        → IsClosedPart (λ a b. Depends (clash_in p) steps b a) steps gone
        → AreTheOthers steps gone stay
        → let u = all_back (records_in p gone) t in
        Kept p s (records_in p stay) (steps_in p stay) u × Kept p u (records_in p gone) (steps_in p gone) t }
{}

/// Marked steps go back on a walk from the end, and the others of that part stay. No later step that stays may conflict with
/// one that goes. This holds where the last of the consequences of a step are marked.
pub fn law_of_marks()
    ensures free { (p : Program) (s t : Contents) (front tail left : List Record) (log : List (Logged p)) (marks : List Bool)
        (i : ℕ)
        → Running p s → Kept p s (front ++ tail) log t
        → dependents conflict_of (front ++ tail) i ≡ left ++ marked marks tail
        → AreFree conflict_of marks tail }
    ensures others { (p : Program) (s t : Contents) (records : List Record) (log : List (Logged p)) (marks : List Bool)
        → Running p s → Kept p s records log t
        → AreTheOthers records (marked marks records) (unmarked marks records) }
    ensures stay { (p : Program) (s t : Contents) (records : List Record) (log : List (Logged p)) (marks : List Bool) (i : ℕ)
        → Running p s → Kept p s records log t
        → dependents conflict_of records i ≡ marked marks records
        → kept conflict_of records i ≡ unmarked marks records }
    ensures next { (p : Program) (s t : Contents) (front tail : List Record) (r : Record) (first later : List (Logged p))
        (k : Logged p) (marks : List Bool)
        → Running p s → length front ≡ length first → Kept p s (front ++ r ∷ tail) (first ++ k ∷ later) t
        → AreFree conflict_of (true ∷ marks) (r ∷ tail)
        → CanGoBack r.id.go r.change (all_back (marked marks tail) t) }
    ensures several { (p : Program) (s t : Contents) (front tail : List Record) (first later : List (Logged p))
        (marks : List Bool)
        → Running p s → length front ≡ length first → Kept p s (front ++ tail) (first ++ later) t
        → AreFree conflict_of marks tail
        → Kept p s (front ++ unmarked marks tail) (first ++ unmarked marks later) (all_back (marked marks tail) t) }
{}
