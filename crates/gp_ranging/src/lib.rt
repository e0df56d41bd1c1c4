//! Equalization delays, and the windows in which units answer (G.984.3, clause 10).
//!
//! Promise: the equalization delay that makes up a unit's round trip, or that there is none; a window has its three
//! frames and ends once (`equalize`, `Window::tick`).
//!
//! - `delay.rt`: `equalize`; `specs/Delay.antt` says which delay it is.
//! - `grant.rt`: `Grant`, who is asked to answer.
//! - `window.rt`: `Window`, what becomes of one with a frame (`Ticked`), and `WINDOW_FRAMES`. `specs/Window.antt`
//!   has a window as contracts see it, and what each call makes of it.
//! - `window_image.rt`: `WindowImage`, where a window stands, as plain data.
//!
//! Another number of frames is a change of `WINDOW_FRAMES` and of `window_frames` in `specs/Window.antt`.
#![tactic(auto)]

mod delay;
mod grant;
mod window;
mod window_image;

pub use delay::equalize;
pub use grant::Grant;
pub use window::{Ticked, WINDOW_FRAMES, Window};
pub use window_image::WindowImage;
