// Laws of the orders.
ghost use Rattle.std.specs.Prelude.{◌≡◌, ◌≢◌};
ghost use Rattle.std.specs.declared.cmp.Ordering.TheVariants.{Equal};
ghost use Rattle.std.specs.Cmp.{IsTotalOrder};
ghost use Rattle.std.proofs.lemmas.Map.Lookups.{CmpEqualImpliesEq};
ghost use Rattle.plot_geometry.specs.BiasOrder.{bias_cmp};
ghost use Rattle.plot_geometry.specs.contracts.biases.BiasOrd.TheImpl as bias_ord;
ghost use Rattle.plot_geometry.specs.contracts.plots.PlanePlotOrd.TheImpl as plot_ord;
ghost use Rattle.plot_geometry.specs.declared.biases.Bias.{Bias};
ghost use Rattle.plot_geometry.specs.PlotOrder.{plot_cmp};
ghost use Rattle.plot_geometry.specs.Plots.{PlanePlot};
ghost use Rattle.trk_base.specs.Keys.{key_cmp};

/// The order of `Ord` is that of the fields, and biases that compare as equal are one.
pub fn bias_order()
    ensures order { (a b : Bias) → bias_ord.ghosts.cmp a b ≡ bias_cmp a b }
    ensures total { IsTotalOrder bias_cmp }
    ensures exact { CmpEqualImpliesEq bias_cmp }
{}

/// The order of `Ord` goes by the key first, then by the other fields; plots that compare as equal
/// are one.
pub fn plot_order()
    ensures order { (a b : PlanePlot) → plot_ord.ghosts.cmp a b ≡ plot_cmp a b }
    ensures key_first { (a b : PlanePlot) → key_cmp a.key b.key ≢ Equal → plot_cmp a b ≡ key_cmp a.key b.key }
    ensures total { IsTotalOrder plot_cmp }
    ensures exact { CmpEqualImpliesEq plot_cmp }
{}
