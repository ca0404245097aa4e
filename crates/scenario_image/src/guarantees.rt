//! What is so of each scenario: laws over the definitions alone, each the contract of a function
//! that does nothing.
ghost use Rattle.scenario_image.specs.PathLaws.{PathsArrive, PathsBegin, PathsGoOnOrEnd, EndsHaveOneFlow};
ghost use Rattle.scenario_image.specs.ImageFault.{ImagesDiffer, SecondImagesAreOne, ImagesHaveNoFault, BytesHaveOneFault};

/// Each path comes to its end after fewer hops than there are nodes, comes only where it may, is at
/// no node twice, and goes no further.
pub fn paths_arrive()
    ensures { PathsArrive }
{}

/// Each path begins with the one link that leaves its start.
pub fn paths_begin()
    ensures { PathsBegin }
{}

/// Where a link of a path ends, the path ends too; or there is a router with a route for the path's
/// end, over a link that leaves the router and is on the path again.
pub fn paths_go_on_or_end()
    ensures { PathsGoOnOrEnd }
{}

/// Only one flow names a sender or a receiver.
pub fn ends_have_one_flow()
    ensures { EndsHaveOneFlow }
{}

/// No bytes are an image of two scenarios, be they of one version or of two.
pub fn images_differ()
    ensures { ImagesDiffer }
{}

/// Each scenario has exactly one image of version 2, the one that is saved.
pub fn second_images_are_one()
    ensures { SecondImagesAreOne }
{}

/// No image of a scenario, of either version, has a fault: what is saved is loaded again.
pub fn images_have_no_fault()
    ensures { ImagesHaveNoFault }
{}

/// Bytes have one first fault at most.
pub fn bytes_have_one_fault()
    ensures { BytesHaveOneFault }
{}
