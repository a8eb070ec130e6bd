//! The table and its steps.
ghost use Rattle.std.specs.Prelude.{◌≡◌, ℕ, ◌+◌, ◌-◌, ◌^◌, ◌<◌, ◌≤◌, [], ◌∷◌, ◌++◌, length, replicate, IfOk};
ghost use Rattle.count_table.specs.Sums.{late};
ghost use Rattle.count_table.specs.Views.{view, view_times, mark, first_view};
ghost use Rattle.count_table.specs.Tallies.{IsSeatAt, table_shape, items_of};
ghost use Rattle.count_table.specs.Rule.{IsStart, IsSummed};

use crate::rule::{Claim, Gather, Give, MarkMade, MarksMade, MarksRepeated, TableShape, TallySeat};
use crate::words::{Summed, Tally};
use atomic_table::Table;
use std::alloc::{AllocError, Global};

impl Tally {
    /// Returns a table of this shape, with all counts 0 and all minimums 2^64 - 1, and one seat that holds all parts.
    ///
    /// Takes eight bytes for each word.
    pub fn new(alloc: Global, shape: TableShape) -> Result<(Tally, TallySeat), AllocError>
        requires pieces { shape.pieces + shape.seats < 2 ^ 63 }
        requires words { shape.counts + shape.leasts < 2 ^ 48 }
        ensures shape { IfOk result (λ t. table_shape t.0 ≡ shape) }
        ensures own { IfOk result (λ t. IsSeatAt t.0 t.1) }
        ensures first { IfOk result (λ t. t.1.me.0 ≡ view shape.seats [] []) }
    {
        let words = first_words(alloc, shape)?;
        let (table, seat) = Table::of_words(alloc, &words, &shape)?;
        Ok((Tally { table }, seat))
    }

    /// Splits one part off a seat that has not made a step yet, and returns the new seat.
    pub fn split(&self, seat: &mut TallySeat) -> TallySeat
        requires own { IsSeatAt self.now seat.old }
        requires parts { 1 ≤ seat.old.me.0.parts }
        requires draws { seat.old.me.0.draws ≡ [] }
        requires marks { seat.old.me.0.marks ≡ [] }
        ensures own { IsSeatAt self.now seat.new × IsSeatAt self.now result }
        ensures kept { seat.new.me.0 ≡ view (seat.old.me.0.parts - 1) [] [] }
        ensures given { result.me.0 ≡ view 1 [] [] }
    {
        self.table.shared.split_seat::<Give>(seat)
    }

    /// Joins the seat `other` to `seat`.
    pub fn join(&self, seat: &mut TallySeat, other: TallySeat)
        requires own { IsSeatAt self.now seat.old × IsSeatAt self.now other }
        ensures own { IsSeatAt self.now seat.new }
        ensures joined { seat.new.me.0 ≡ view (seat.old.me.0.parts + other.me.0.parts) (seat.old.me.0.draws ++ other.me.0.draws) (seat.old.me.0.marks ++ other.me.0.marks) }
    {
        self.table.shared.join_seat::<Gather>(seat, other);
    }

    /// Draws the next piece of work and returns its number, which isn't below the number of pieces if no work is left.
    pub fn claim(&self, seat: &mut TallySeat) -> u64
        requires own { IsSeatAt self.now seat.old }
        requires early { late (table_shape self.now).pieces seat.old.me.0.draws < seat.old.me.0.parts }
        ensures own { IsSeatAt self.now seat.new }
        ensures drew { seat.new.me.0 ≡ view seat.old.me.0.parts (seat.old.me.0.draws ++ result ∷ []) seat.old.me.0.marks }
        ensures more { length seat.old.me.0.draws ≤ result }
    {
        self.table.shared.fetch_add::<Claim>(seat, 0, 1)
    }

    /// Adds `amount` to the count `word`.
    pub fn count(&self, seat: &mut TallySeat, word: usize, amount: u64)
        requires own { IsSeatAt self.now seat.old }
        requires parts { 1 ≤ seat.old.me.0.parts }
        requires first { 1 ≤ word }
        requires last { word < 1 + (table_shape self.now).counts }
        ensures own { IsSeatAt self.now seat.new }
        ensures marked { seat.new.me.0 ≡ view seat.old.me.0.parts seat.old.me.0.draws (seat.old.me.0.marks ++ mark word amount ∷ []) }
    {
        let _found = self.table.shared.fetch_add::<MarkMade>(seat, word, amount);
    }

    /// Adds `times` to the count `word`, recorded as `times` marks of 1.
    pub fn count_times(&self, seat: &mut TallySeat, word: usize, times: u64)
        requires own { IsSeatAt self.now seat.old }
        requires parts { 1 ≤ seat.old.me.0.parts }
        requires first { 1 ≤ word }
        requires last { word < 1 + (table_shape self.now).counts }
        ensures own { IsSeatAt self.now seat.new }
        ensures marked { seat.new.me.0 ≡ view_times seat.old.me.0.parts seat.old.me.0.draws (seat.old.me.0.marks ++ replicate times (mark word 1)) times }
    {
        let _found = self.table.shared.fetch_add::<MarksMade>(seat, word, times);
    }

    /// Lowers the minimum `word` to `value` if `value` is less, recorded as many times as the previous step recorded a mark of 1.
    pub fn lower_times(&self, seat: &mut TallySeat, word: usize, value: u64)
        requires own { IsSeatAt self.now seat.old }
        requires parts { 1 ≤ seat.old.me.0.parts }
        requires times { 1 ≤ seat.old.me.0.times }
        requires first { 1 + (table_shape self.now).counts ≤ word }
        requires last { word < 1 + ((table_shape self.now).counts + (table_shape self.now).leasts) }
        ensures own { IsSeatAt self.now seat.new }
        ensures marked { seat.new.me.0 ≡ view seat.old.me.0.parts seat.old.me.0.draws (seat.old.me.0.marks ++ replicate seat.old.me.0.times (mark word value)) }
    {
        let _found = self
            .table
            .shared
            .fetch_min::<MarksRepeated>(seat, word, value);
    }

    /// Lowers the minimum `word` to `value` if `value` is less.
    pub fn lower(&self, seat: &mut TallySeat, word: usize, value: u64)
        requires own { IsSeatAt self.now seat.old }
        requires parts { 1 ≤ seat.old.me.0.parts }
        requires first { 1 + (table_shape self.now).counts ≤ word }
        requires last { word < 1 + ((table_shape self.now).counts + (table_shape self.now).leasts) }
        ensures own { IsSeatAt self.now seat.new }
        ensures marked { seat.new.me.0 ≡ view seat.old.me.0.parts seat.old.me.0.draws (seat.old.me.0.marks ++ mark word value ∷ []) }
    {
        let _found = self.table.shared.fetch_min::<MarkMade>(seat, word, value);
    }

    /// Returns the final words. The seat must hold all parts.
    pub fn close(self, seat: TallySeat) -> Summed
        requires own { IsSeatAt self seat }
        requires whole { seat.me.0.parts ≡ (table_shape self).seats }
        ensures { IsSummed (table_shape self) seat.me.0 (items_of result) }
    {
        let Tally { table } = self;
        Summed {
            closed: table.close_with(seat),
        }
    }
}

/// Returns the initial words: 0 for word 0 and the counts, 2^64 - 1 for the minimums.
fn first_words(alloc: Global, shape: TableShape) -> Result<Vec<u64>, AllocError>
    requires words { shape.counts + shape.leasts < 2 ^ 48 }
    ensures { IfOk result (λ words. IsStart shape words.items) }
{
    let counts = shape.counts as usize;
    let mut words = vec![in alloc; 0; 1 + counts + shape.leasts as usize]?;
    words[1 + counts..].fill(u64::MAX);
    Ok(words)
}
