// What a bad face shows, and what the links of vertices are: laws, and no code.
ghost use Rattle.link_check.specs.Laws.{BadLinkLaw};
ghost use Rattle.link_check.specs.Vertices.{VertexLinksClosed, GoodLinksLaw};

/// No list of legal flips leads the link of a bad face to the boundary of a simplex. So where the
/// bad face is one vertex, the link of that vertex has no certificate of a sphere.
pub fn bad_link_law()
    ensures { BadLinkLaw }
{}

/// In a closed complex the link of each vertex is closed: a ridge of the link, with the vertex
/// added, is a ridge of the complex, and lies in as many facets.
pub fn vertex_links_closed()
    ensures { VertexLinksClosed }
{}

/// Where no face is bad, each vertex of a closed complex of dimension 2 or more has a link that is
/// closed and strongly connected.
pub fn good_links_law()
    ensures { GoodLinksLaw }
{}
