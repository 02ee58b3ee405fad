// What C calls for all routes that a chart's bytes ask for (include/poztecameh.h; poztecameh exports it; document 02, Ten).
#![tactic(auto)]

ghost use Rattle.std.specs.Prelude.{◌≡◌, length};
ghost use Rattle.route_list_door.specs.Calls.{pz_routes_refusal, pz_routes_place, pz_routes_count, pz_routes_more, pz_routes_slots};

// Lists the routes; `count` is how many, `more` 1 where others follow, `place` where the field begins that the chart's number refuses, else 0.
pub fn pz_routes(
    chart: &[u8],
    slots: &mut [u8],
    count: &mut u16,
    more: &mut u8,
    place: &mut u16,
) -> u8
    ensures { (result ≡ pz_routes_refusal chart.now (length slots.old)) × (count.new ≡ pz_routes_count chart.now (length slots.old)) × (more.new ≡ pz_routes_more chart.now (length slots.old)) × (place.new ≡ pz_routes_place chart.now) × (slots.new ≡ pz_routes_slots chart.now slots.old) }
{
    *count = 0;
    *more = 0;
    *place = 0;
    match chart_read::read_chart(chart) {
        Ok(c) => match route_trace::list_known(c, slots) {
            Ok(l) => {
                *count = l.count as u16;
                *more = l.more as u8;
                0
            }
            Err(refusal) => refusal.number(),
        },
        Err(fault) => {
            *place = fault.place as u16;
            fault.refusal.number()
        }
    }
}
