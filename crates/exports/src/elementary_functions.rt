// exp, ln, ln(1 + v) and exp(x) - 1.
ghost use Rattle.std.specs.Prelude.{◌≡◌};
ghost use Rattle.elementary.specs.Exp.{exp_of};
ghost use Rattle.elementary.specs.ExpMinusOne.{exp_minus_one_of};
ghost use Rattle.elementary.specs.Ln.{ln_of};
ghost use Rattle.elementary.specs.LnOnePlus.{ln_one_plus_of};

#[unsafe(no_mangle)]
pub extern "C" fn consensus_exp(x: f64) -> f64
    ensures { result ≡ exp_of x }
{
    elementary::exp(x)
}

#[unsafe(no_mangle)]
pub extern "C" fn consensus_ln(x: f64) -> f64
    ensures { result ≡ ln_of x }
{
    elementary::ln(x)
}

#[unsafe(no_mangle)]
pub extern "C" fn consensus_ln_1p(x: f64) -> f64
    ensures { result ≡ ln_one_plus_of x }
{
    elementary::ln_1p(x)
}

#[unsafe(no_mangle)]
pub extern "C" fn consensus_exp_m1(x: f64) -> f64
    ensures { result ≡ exp_minus_one_of x }
{
    elementary::exp_m1(x)
}
