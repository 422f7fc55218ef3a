//! Laws about the arithmetic of pressure: averages, shares and triggers. Each function has an empty
//! body: its contract is the law.

ghost use Rattle.pressure_spec.specs.Laws.{AtMostHundred, CarriesTheRest, FallsWhenFree, FiredApart, GroupsAtMostHundred, IdleHasNone, IrqTotalBound, LoadApproaches};
ghost use Rattle.pressure_spec.specs.Laws.{NextSharesWithin, PendingIsSignalled, PowerHalves, QuietWhenStill, RemembersLast, RisesWhenStalled, SamplesWithinTotal, ShareIsMean};
ghost use Rattle.pressure_spec.specs.Laws.{ShareSumFits, ShareWithinSum, SharesWithin, SignalsApart, TotalIsSum, TotalsGrow, TotalsNeverFall, TotalsWithin};

/// Fixed-point powers are computed by squaring. An average moves toward the active pressure and
/// never past it.
pub fn law_fixed_point()
    ensures power { PowerHalves }
    ensures load { LoadApproaches }
{}

/// The averages of a group never exceed 100 percent. An update raises an average toward 100 percent
/// if the stall time that isn't sampled yet fills the time that the update covers and no period was
/// missed. It lowers the average if no unsampled stall time is left. An update samples at most the
/// time that it covers, and leaves the remaining stall time to later updates.
pub fn law_averages()
    ensures most { AtMostHundred }
    ensures rises { RisesWhenStalled }
    ensures falls { FallsWhenFree }
    ensures carries { CarriesTheRest }
    ensures within { SamplesWithinTotal }
{}

/// Two signals of a trigger are at least a window apart. A pending event is signalled at the first
/// tick at which this is possible. A trigger never signals if the total keeps its initial value.
pub fn law_signals()
    ensures apart { SignalsApart }
    ensures pending { PendingIsSignalled }
    ensures remembers { RemembersLast }
    ensures quiet { QuietWhenStill }
{}

/// The shares of an interval are weighted means of the processors' times, and 0 if the group was
/// idle. The totals are sums of shares.
pub fn law_shares()
    ensures mean { ShareIsMean }
    ensures within { SharesWithin }
    ensures sum { ShareWithinSum }
    ensures fits { ShareSumFits }
    ensures idle { IdleHasNone }
    ensures totals { TotalsGrow }
{}

/// For groups over any list of ticks: a total is the sum of the shares of its intervals, so it
/// never decreases; it is bounded, so it fits its 64-bit counter; no average exceeds 100 percent;
/// and two signals of a trigger are at least a window apart.
pub fn law_ticks()
    ensures sum { TotalIsSum }
    ensures unchanged { TotalsNeverFall }
    ensures shares { NextSharesWithin }
    ensures within { TotalsWithin }
    ensures bound { IrqTotalBound }
    ensures most { GroupsAtMostHundred }
    ensures apart { FiredApart }
{}
