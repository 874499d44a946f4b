// Amounts of money, in cents.
ghost use Rattle.std.specs.Prelude.{◌≡◌, ◌≤◌, pos, ◌*ℤ◌, unsigned_abs};

// So many MW or MWh at a price.
pub(crate) fn at_price(mw: u32, price: i64) -> i64
    requires mw { mw ≤ 786420 }
    requires price { unsigned_abs price ≤ 1200000 }
    ensures value { result ≡ pos mw *ℤ price }
    ensures size { unsigned_abs result ≤ 943704000000 }
{
    i64::from(mw) * price
}
