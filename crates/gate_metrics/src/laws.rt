//! What the definitions mean. Each law is the contract of a function that does nothing.

ghost use Rattle.std.specs.Prelude.{◌≡◌, ℕ, true};
ghost use Rattle.std.specs.List.{list_all};
ghost use Rattle.gate_cases.specs.declared.face.Face.{Face};
ghost use Rattle.gate_metrics.specs.declared.counters.Counted.{Counted};
ghost use Rattle.gate_metrics.specs.declared.counters.Counters.{Counters};
ghost use Rattle.gate_metrics.specs.declared.gauges.Gauges.{Gauges};
ghost use Rattle.gate_metrics.specs.Counting.{counted_at};
ghost use Rattle.gate_metrics.specs.Text.{families, peer_families};
ghost use Rattle.gate_metrics.specs.Laws.{AreCounts, HaveGrown, is_named, AreApart};

/// What is counted makes no counter smaller.
pub fn counters_grow()
    ensures { (face : Face) (what : Counted) (c : Counters) → AreCounts c
        → HaveGrown c (counted_at face what c) }
{}

/// No sample stands there twice: no two families have one name, and no two samples of a family the same
/// labels.
pub fn has_no_sample_twice()
    ensures own { (c : Counters) (g : Gauges) → AreApart (families c g) }
    ensures peers { (c : Counters) (g : Gauges) (old new : ℕ) → AreApart (peer_families c g old new) }
{}

/// The counters' names end in `_total`, and no gauge's does.
pub fn names_say_their_types()
    ensures own { (c : Counters) (g : Gauges) → list_all is_named (families c g) ≡ true }
    ensures peers { (c : Counters) (g : Gauges) (old new : ℕ)
        → list_all is_named (peer_families c g old new) ≡ true }
{}
