//! What the definitions of dates, series, years, indices and kinds mean.
ghost use Rattle.escrow_units.specs.CalendarLaws.{DatesAfterAreLater, DatesAreUnique, EachDayIsDated, IndexIsBounded, IndexRises, KindsAreExclusive, KindsAreExhaustive, MonthEndIsSameDayElsewhere, MonthEndStays, NoYearsPass, PreviousIsLast, SameDayKeepsDay, SeriesFalls, SeriesHasDays, SeriesStartsAtMaturity, SeriesStepsByHalfYears, SettlementLeadsToBaseDays, StepsCount180, TextsSpellDays, YearsLeadToDays, YearsPass};
ghost use Rattle.escrow_units.specs.OpenDayLaws.{NoneIsMoved, OpenDaysAreLeast, OpenDaysAreNear, OpenDaysAreUnique, OpenDaysKeepOrder, OpenDaysStay};

/// What the date of a day number is, the one date of the calendar that has that number, and which bytes spell it.
pub fn date_laws()
    ensures dated { EachDayIsDated }
    ensures unique { DatesAreUnique }
    ensures texts { TextsSpellDays }
{}

/// What the dates of a series are, in the terms of bonds: they start at maturity and fall by half-years of 181 to 184
/// days, on the same day of the month or at month ends. Where they keep the day of the month, and it is at most the
/// 28th, each half-year counts 180 of the index. The dates after a day are just those of the series that come after it, and
/// the date before them is the last up to the day.
pub fn series_laws()
    ensures start { SeriesStartsAtMaturity }
    ensures fall { SeriesFalls }
    ensures half_years { SeriesStepsByHalfYears }
    ensures days { SeriesHasDays }
    ensures same_day { SameDayKeepsDay }
    ensures month_end { MonthEndStays }
    ensures elsewhere { MonthEndIsSameDayElsewhere }
    ensures index { StepsCount180 }
    ensures after { DatesAfterAreLater }
    ensures previous { PreviousIsLast }
{}

/// What a day some years later is: 365 or 366 days for each, and never out of the days that are counted from.
pub fn year_laws()
    ensures pass { YearsPass }
    ensures none { NoYearsPass }
    ensures days { YearsLeadToDays }
    ensures base { SettlementLeadsToBaseDays }
{}

/// What the index does: it never falls as days pass, and is at most 14,400 within 40 years.
pub fn index_laws()
    ensures rise { IndexRises }
    ensures bound { IndexIsBounded }
{}

/// What the kinds of SLGS securities are: each maturity has exactly one.
pub fn kind_laws()
    ensures exclusive { KindsAreExclusive }
    ensures exhaustive { KindsAreExhaustive }
{}

/// What the open day of a day is: the least day at or after it that is open, and there is one. An open day is its own, and a
/// later day opens no sooner.
pub fn open_day_laws()
    ensures least { OpenDaysAreLeast }
    ensures unique { OpenDaysAreUnique }
    ensures stay { OpenDaysStay }
    ensures none { NoneIsMoved }
    ensures order { OpenDaysKeepOrder }
    ensures near { OpenDaysAreNear }
{}
