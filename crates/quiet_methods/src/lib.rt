//! Which methods of a program are quiet.
//!
//! A method is quiet where each position to which a run comes has a form that neither throws nor shows nor changes anything,
//! where no way among these positions comes back to where it was, and where each call is a static one of a quiet method
//! whose class runs no code when it is initialised. Calls that lead back to a method never make it quiet. What runs come
//! to, and what they hold in their registers there, is asked of frames, one for each position.
//!
//! [`quiet_methods`] ensures that its marks are those of the quiet methods by number (`specs/Quiet.antt`): marked methods
//! have levels, and their positions ranks, that fall with each call and each step, and a method with code that isn't marked
//! has a loud form, circles, or calls a method that isn't marked.
//!
//! Both levels and ranks are given by [`settle`], which goes over the nodes of a graph, from the last to the first, and gives
//! the next number to each one whose needs all have one, until nothing is left to give. Ways mostly go forward, so it comes
//! to an end in few turns.
#![tactic(auto)]

mod bodies;
mod forms;
mod laws;
mod methods;
mod ranks;
mod ways;

pub use laws::ranks_fall;
pub use methods::quiet_methods;
pub use ranks::{Node, settle};
