//! The places of a path.

ghost use Rattle.std.specs.Prelude.{◌≡◌};
ghost use Rattle.path_laws.specs.Places.{across, face_of, node_place, face_place};

use gate_cases::Face;

/// An end of a path.
#[derive(Clone, Copy, Debug, PartialEq, Eq)]
pub enum PathEnd {
    /// The old node, which speaks version 6 (RFC 5050).
    Old,
    /// The new node, which speaks version 7 (RFC 9171).
    New,
}

impl PathEnd {
    /// The face of the gate whose version the end speaks.
    pub fn face(self) -> Face
        ensures { result ≡ face_of self }
    {
        match self {
            PathEnd::Old => Face::Old,
            PathEnd::New => Face::New,
        }
    }

    /// The place of the end's node.
    pub fn node(self) -> Place
        ensures { result ≡ node_place self }
    {
        match self {
            PathEnd::Old => Place::OldNode,
            PathEnd::New => Place::NewNode,
        }
    }
}

/// Where something happens on a path, from one end to the other.
#[derive(Clone, Copy, Debug, PartialEq, Eq)]
pub enum Place {
    /// The old node.
    OldNode,
    /// The gate's face to the old node.
    OldFace,
    /// The gate's face to the new node.
    NewFace,
    /// The new node.
    NewNode,
}

impl Place {
    /// The place of a face of the gate.
    pub fn of_face(face: Face) -> Place
        ensures { result ≡ face_place face }
    {
        match face {
            Face::Old => Place::OldFace,
            Face::New => Place::NewFace,
        }
    }

    /// The place at the other end of this one's link.
    pub fn across(self) -> Place
        ensures { result ≡ across self }
    {
        match self {
            Place::OldNode => Place::OldFace,
            Place::OldFace => Place::OldNode,
            Place::NewFace => Place::NewNode,
            Place::NewNode => Place::NewFace,
        }
    }
}
