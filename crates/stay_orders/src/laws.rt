// What an order of stays leaves as it is, and what it changes. Each law is the contract of a function that
// does nothing.
ghost use Rattle.stay_orders.specs.Orders.{FrontedIsWhole, FrontedStaysBest};
ghost use Rattle.stay_orders.specs.Corners.{FrontedIsCorner, OrderIsUnseen};
ghost use Rattle.stay_orders.specs.Levels.{FrontedRays, FrontedSums, PrioritiesAreUnseen};
ghost use Rattle.stay_orders.specs.Levels.{PrioritiesCostTheSame};
ghost use Rattle.stay_orders.specs.Turned.{OnlyFrontedTurn, SomeTurn};
ghost use Rattle.stay_orders.specs.Examples.{KeepDecides, LevelsGoByPlace, SomeOrders};

/// Those that come first are the ones asked for, in the order in which they are asked; the others follow in
/// theirs, and the latest ones that came first come before those of earlier times.
pub fn some_orders()
    ensures { SomeOrders }
{}

/// The levels of stays are those of their places in the list, whatever the attributes' numbers.
pub fn levels_go_by_place()
    ensures { LevelsGoByPlace }
{}

/// A whole problem is whole in each order of its stays.
pub fn fronted_is_whole()
    ensures { FrontedIsWhole }
{}

/// Where the stays stand at what is best, it is best in each order of theirs.
pub fn fronted_stays_best()
    ensures { FrontedStaysBest }
{}

/// The order decides which of two attributes gives way.
pub fn keep_decides()
    ensures { KeepDecides }
{}

/// The equations of a problem, and what stands at marks, don't depend on the order.
pub fn order_is_unseen()
    ensures { OrderIsUnseen }
{}

/// A corner's marks are a corner's in each order.
pub fn fronted_is_corner()
    ensures { FrontedIsCorner }
{}

/// A sum over the lines that doesn't tell the levels of stays apart is the same.
pub fn fronted_sums()
    ensures { FrontedSums }
{}

/// Each mark outside that can grow alone can do so in each order.
pub fn fronted_rays()
    ensures { FrontedRays }
{}

/// The unit, the row and the reduced costs of a priority level are the same.
pub fn priorities_are_unseen()
    ensures { PrioritiesAreUnseen }
{}

/// And so is its cost.
pub fn priorities_cost_the_same()
    ensures { PrioritiesCostTheSame }
{}

/// A column that costs nothing at the stays that come first has the first cost of before.
pub fn only_fronted_turn()
    ensures { OnlyFrontedTurn }
{}

/// A column that turns negative, and where it does not.
pub fn some_turn()
    ensures { SomeTurn }
{}
