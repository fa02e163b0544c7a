//! The kinds of named complexes.

ghost use Rattle.std.specs.Prelude.{◌≡◌, ◌≢◌, IfSome, IfNone};
ghost use Rattle.make_complex.specs.Kinds.{is_surface, kind_name, kind_named};
ghost use Rattle.make_complex.specs.declared.kind.Kind.{Kind as Named};

/// The kinds of complexes that have names.
#[derive(Clone, Copy, Debug, PartialEq, Eq)]
pub enum Kind {
    /// The boundary of a simplex.
    Simplex,
    /// The boundary of a cross polytope.
    Cross,
    /// The torus with seven labels, a surface.
    Torus,
    /// The projective plane with six labels, a surface.
    Plane,
}

impl Kind {
    /// The kind of this name.
    pub fn from_name(name: &str) -> Option<Kind>
        ensures named { result ≡ kind_named name.now }
        ensures some { IfSome result (λ kind. name.now ≡ kind_name kind) }
        ensures none { IfNone result ((kind : Named) → name.now ≢ kind_name kind) }
    {
        match name {
            "simplex" => Some(Kind::Simplex),
            "cross" => Some(Kind::Cross),
            "torus" => Some(Kind::Torus),
            "plane" => Some(Kind::Plane),
            _ => None,
        }
    }

    /// Its name.
    pub fn name(self) -> &'static str
        ensures { result.now ≡ kind_name self }
    {
        match self {
            Kind::Simplex => "simplex",
            Kind::Cross => "cross",
            Kind::Torus => "torus",
            Kind::Plane => "plane",
        }
    }

    /// Whether it is a surface, so that 2 is its only dimension.
    pub fn is_surface(self) -> bool
        ensures { result ≡ is_surface self }
    {
        matches!(self, Kind::Torus | Kind::Plane)
    }
}
