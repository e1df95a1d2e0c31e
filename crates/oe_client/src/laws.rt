// Laws.
ghost use Rattle.oe_client.specs.Laws.{PagesAreFollowed};

/// Does nothing. Its contract says that behind a page which a server of this kind answers the next one begins where the
/// link of the page leads, for lists of at most 100100 items: so all of them are asked for.
pub fn pages_are_followed()
    ensures { PagesAreFollowed }
{}
