// What stands on both sides of an exchange.
ghost use Rattle.corner_laws.specs.ExchangeLaws.{RaysStay, PivotIsExchange, ValuesStay, PrimalChoiceStays};
ghost use Rattle.corner_laws.specs.ExchangeLaws.{ColumnsStay, DualChoiceStays};

/// Each outside mark can grow alone at the next corner too.
pub fn rays_stay()
    ensures { RaysStay }
{}

/// At a corner, an outside mark can be exchanged for each inside mark that moves on its ray: the marks after
/// it are a corner.
pub fn pivot_is_exchange()
    ensures { PivotIsExchange }
{}

/// The primal ratio rule: where the mark that comes to 0 first leaves, no value is negative at the next
/// corner.
pub fn values_stay()
    ensures { ValuesStay }
{}

/// The primal ratio rule by the writings of the marks inside.
pub fn primal_choice_stays()
    ensures { PrimalChoiceStays }
{}

/// The dual ratio rule: where the mark with the least column over its number in the leaving mark's row
/// enters, no column is negative at the next corner.
pub fn columns_stay()
    ensures { ColumnsStay }
{}

/// The dual ratio rule by writings, of the leaving mark and of the levels' costs.
pub fn dual_choice_stays()
    ensures { DualChoiceStays }
{}
