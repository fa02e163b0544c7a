ghost use Rattle.face_counts.specs.Laws.{EulerLaw, FacesLaw};

/// The list of faces that the counts are of is rising, and holds exactly the faces of the complex.
pub fn faces_law()
    ensures { FacesLaw }
{}

/// The Euler characteristic is a sum over all faces, of 1 for each with an odd number of labels
/// and of -1 for each other one. By the numbers of faces it is the sum of (-1)^j f_j.
pub fn euler_law()
    ensures { EulerLaw }
{}
