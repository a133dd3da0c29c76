// What the definitions promise by themselves, and that the program's numbers are theirs.
ghost use Rattle.std.specs.Prelude.{◌≡◌, pos};
ghost use Rattle.std.specs.Cmp.{IsTotalOrder};
ghost use Rattle.std.proofs.lemmas.Map.Lookups.{CmpEqualImpliesEq};
ghost use Rattle.trk_base.specs.declared.limits.TheConstants.{GATE_COST, MISS_COST, PLANE_BOUND, COUNT_LIMIT};
ghost use Rattle.trk_base.specs.declared.times.TheConstants.{DAY};
ghost use Rattle.trk_base.specs.declared.plots.RawPlot.{RawPlot};
ghost use Rattle.trk_base.specs.contracts.plots.RawPlotOrd.TheImpl.{ghosts};
ghost use Rattle.trk_base.specs.Limits.{gate_cost, miss_cost, plane_bound, count_limit};
ghost use Rattle.trk_base.specs.Numbers.{day};
ghost use Rattle.trk_base.specs.RawPlots.{raw_plot_cmp};

/// Each number that several crates cite is the definitions' own.
pub fn one_home()
    ensures gate { GATE_COST ≡ gate_cost }
    ensures miss { MISS_COST ≡ miss_cost }
    ensures plane { PLANE_BOUND ≡ pos plane_bound }
    ensures count { COUNT_LIMIT ≡ count_limit }
    ensures day { DAY ≡ day }
{}

/// The order of plots as a radar reports them: by its fields as they stand, total, and equal for no
/// two plots.
pub fn raw_plot_order()
    ensures by_fields { (a b : RawPlot) → ghosts.cmp a b ≡ raw_plot_cmp a b }
    ensures total { IsTotalOrder raw_plot_cmp }
    ensures exact { CmpEqualImpliesEq raw_plot_cmp }
{}
