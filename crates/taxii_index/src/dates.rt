ghost use Rattle.std.specs.Prelude.{◌≡◌};
ghost use Rattle.taxii_rows.specs.StoreState.{AscendFrom};
ghost use Rattle.taxii_rows.specs.Keeper.{is_date_in};

/// Whether the date is listed. Binary search.
pub(crate) fn is_among(dates: &[u64], date: u64) -> bool
    requires { AscendFrom 0 dates.now }
    ensures { result ≡ is_date_in dates.now date }
{
    dates.binary_search(&date).is_ok()
}
