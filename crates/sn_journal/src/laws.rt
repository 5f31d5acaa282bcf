//! What journals say of the packets that are held, as contracts of functions that do nothing.
ghost use Rattle.sn_journal.specs.declared.entry.Entry.{Entry};
ghost use Rattle.sn_journal.specs.HandOvers.{PacketName};
ghost use Rattle.sn_journal.specs.Holding.{GivesOnlyHeld, all_speak_of_held, gains, held_after, held_from, holding};
ghost use Rattle.sn_journal.specs.Holding.{is_among, losses, one_at, speaks_of_held, weight};
ghost use Rattle.std.specs.Prelude.{List, [], true, ℕ, ◌+◌, ◌++◌, ◌∷◌, ◌≡◌, ◌≤◌, ◌↔◌};

/// One more entry changes what is held as that entry says. A journal whose entries give only what is held goes on to be one
/// where the new entry does.
pub fn holding_grows()
    ensures held { (entries : List Entry) (entry : Entry)
        → holding (entries ++ entry ∷ []) ≡ held_after (holding entries) entry }
    ensures only { (entries : List Entry) (entry : Entry)
        → GivesOnlyHeld entries → speaks_of_held (holding entries) entry ≡ true → GivesOnlyHeld (entries ++ entry ∷ []) }
{}

/// A journal may be read in two parts: what is held after the first is what the second begins with.
pub fn holding_joins()
    ensures held { (before after : List Entry) → holding (before ++ after) ≡ held_from (holding before) after }
    ensures first { (before after : List Entry) → GivesOnlyHeld (before ++ after) → GivesOnlyHeld before }
    ensures then { (before after : List Entry)
        → GivesOnlyHeld (before ++ after) → all_speak_of_held (holding before) after ≡ true }
{}

/// What was received is what was given and what is held, by any function of number and turn that weighs them.
pub fn holding_balances()
    ensures { (entries : List Entry) (f : ℕ → ℕ → ℕ)
        → GivesOnlyHeld entries → gains f entries ≡ losses f entries + weight f (holding entries) }
{}

/// A packet stands among others exactly where it counts at least once.
pub fn held_by_weight()
    ensures { (x : PacketName) (held : List PacketName) → (is_among x held ≡ true) ↔ (1 ≤ weight (one_at x) held) }
{}
