//! Looking a route up.
ghost use Rattle.std.specs.Prelude.{◌≡◌};
ghost use Rattle.scenario_image.specs.Limits.{IsInLimits};
ghost use Rattle.scenario_image.specs.Paths.{route_link as link_of_route};
ghost use Rattle.scenario_image.specs.RouteLimits.{route_key as key_of_route};

use crate::parts::ScenarioParts;

/// A number that rises as routes do, by router and destination.
fn route_key(router: u16, destination: u16) -> u32
    ensures { result ≡ key_of_route router destination }
{
    u32::from(router) * 65_536 + u32::from(destination)
}

/// The number of the link of a router's route for a destination, if there is one; found by halves,
/// as routes rise by router and destination.
pub fn route_link(parts: &ScenarioParts, router: u16, destination: u16) -> Option<u16>
    requires { IsInLimits parts.now }
    ensures { result ≡ link_of_route parts.now.routes router destination }
{
    let routes = parts.routes.as_slice();
    let key = route_key(router, destination);
    match routes.binary_search_by_key(&key, |route| route_key(route.router, route.destination)) {
        Ok(place) => Some(routes[place].link),
        Err(_) => None,
    }
}
