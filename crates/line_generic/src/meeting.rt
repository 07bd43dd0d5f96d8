//! Implements `meet`, with which two ports of a line merge what they know about the line's history. For one step, the
//! seats of the two ports are joined into a single seat, which is then split again.
ghost use Rattle.line_generic.specs.Answers.{HaveMet};
ghost use Rattle.line_generic.specs.Steps.{IsSeatOf, HasNoSlot, IsOfOneNode};

use crate::discipline::Discipline;
use crate::plays::{Concat, Meet, SplitEmpty, SplitFirst};
use crate::table::{LineSeat, SharedTable};
use qolb_model::Keep;
use std::mem;

/// Merges the views of two seats with one node each. Only `a` may have slots.
///
/// A step compares only nodes of one seat, so seat `b` is joined into `a` and split off again. An empty seat takes its
/// place meanwhile, because a `&mut` cannot be empty.
pub(crate) fn meet_seats<K: Keep, Q: Discipline<K>>(
    table: &SharedTable<K, Q>,
    a: &mut LineSeat<Q::Local>,
    b: &mut LineSeat<Q::Local>,
)
    requires table_a { IsSeatOf (Q.word_count table.now.key.config.nodes) table.now.table_id a.old }
    requires table_b { IsSeatOf (Q.word_count table.now.key.config.nodes) table.now.table_id b.old }
    requires single { IsOfOneNode Q.phases.initial a.old.me
        × IsOfOneNode Q.phases.initial b.old.me }
    requires slot { HasNoSlot b.old }
    ensures { HaveMet K.allows Q.phases.initial a.old b.old a.new b.new }
{
    let empty_half = table.split_seat::<SplitEmpty>(a);
    let other = mem::replace(b, empty_half);
    table.join_seat::<Concat>(a, other);
    table.load::<Meet<K, Q>>(a, 0);
    *b = table.split_seat::<SplitFirst>(a);
}
