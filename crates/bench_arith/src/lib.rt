#![tactic(auto)]
// The root, the sine and the cosine under C names, for bench/arith.rs to time.
ghost use Rattle.std.specs.Prelude.{◌≡◌};
ghost use Rattle.arith_root.specs.Root.{root_of};
ghost use Rattle.arith_trig.specs.Trig.{sin_of, cos_of};

// The root, for timing.
#[unsafe(no_mangle)]
pub extern "C" fn cs_root(x: f64) -> f64
    ensures { result ≡ root_of x }
{
    arith_root::root(x)
}

// Sine and cosine, for timing.
#[tactic(auto, unfolding(arith_trig::specs::Own::SinCos::sin_cos_of))]
#[unsafe(no_mangle)]
pub extern "C" fn cs_sin_cos(t: f64, sin: &mut f64, cos: &mut f64)
    ensures { (sin.new ≡ sin_of t) × (cos.new ≡ cos_of t) }
{
    let both = arith_trig::sin_cos(t);
    *sin = both.sin;
    *cos = both.cos;
}
