// What C calls for the first route that a chart's bytes ask for (include/poztecameh.h; poztecameh exports it).
#![tactic(auto)]

ghost use Rattle.std.specs.Prelude.{◌≡◌};
ghost use Rattle.route_first_door.specs.Routes.{pz_first_number, pz_first_buffer};

// Writes the first route; the length is not looked at.
pub fn pz_first(chart: &[u8], route: &mut [u8], length: usize) -> u8
    ensures { (result ≡ pz_first_number chart.now route.old) × (route.new ≡ pz_first_buffer chart.now route.old) }
{
    match chart_read::read_chart(chart) {
        Ok(c) => route_trace::one_number(route_trace::first_known(c, route)),
        Err(fault) => fault.refusal.number(),
    }
}
