ghost use Rattle.std.specs.Prelude.{◌≡◌, ◌<◌, ◌≤◌, ℕ, List, Some};
ghost use Rattle.plcr_compact.specs.declared.encoding.SavedRegister.{SavedRegister};
ghost use Rattle.plcr_compact.specs.declared.encoding.TheConstants.{SAVED_REGISTERS};
ghost use Rattle.plcr_compact.specs.declared.section.Entry.{Entry};
ghost use Rattle.plcr_compact.specs.Laws.{IsChosen, IsOrder, orders_of, order_by};
ghost use Rattle.plcr_compact.specs.Tables.{chosen};

/// The entry that is chosen for an offset is the one with the greatest offset that isn't above it,
/// of equals the last; and where there is such an entry it is chosen.
pub fn entries_are_chosen()
    ensures found { (offset : ℕ) (entries : List Entry) (entry : Entry) →
        chosen offset entries ≡ Some entry → IsChosen offset entries entry }
    ensures only { (offset : ℕ) (entries : List Entry) (entry : Entry) →
        IsChosen offset entries entry → chosen offset entries ≡ Some entry }
{}

/// The numbers of permutations are those of the orders in which so many of the six registers can
/// stand.
pub fn permutations_are_orders()
    // A number names an order: so many registers, no two the same.
    ensures order { (count number : ℕ) (registers : List SavedRegister) →
        order_by count number ≡ Some registers → IsOrder count registers }

    // Only numbers below the number of orders do.
    ensures below { (count number : ℕ) (registers : List SavedRegister) →
        0 < count → order_by count number ≡ Some registers → number < orders_of count }

    // Of these no two name the same order.
    ensures same { (count one other : ℕ) (registers : List SavedRegister) →
        one < orders_of count → other < orders_of count → order_by count one ≡ Some registers
        → order_by count other ≡ Some registers → one ≡ other }

    // Each order is named.
    ensures each { (count : ℕ) (registers : List SavedRegister) →
        count ≤ SAVED_REGISTERS → IsOrder count registers
        → (number : ℕ) × (number < orders_of count) × (order_by count number ≡ Some registers) }
{}
