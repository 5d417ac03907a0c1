// The drawing of frames.
use crate::fraction::put_attribute;
use crate::frame::Frame;
use std::alloc::{AllocError, Global};

// Appends the attributes that say where the frame stands.
fn put_left_top(out: &mut String, frame: &Frame<'_>) -> Result<(), AllocError> {
    put_attribute(out, "x", frame.left)?;
    put_attribute(out, "y", frame.top)
}

// Appends the attributes that say how large the frame is.
fn put_size(out: &mut String, frame: &Frame<'_>) -> Result<(), AllocError> {
    put_attribute(out, "width", frame.width)?;
    put_attribute(out, "height", frame.height)
}

// Appends the head of the drawing, which is as large as the window.
fn put_head(out: &mut String, window: &Frame<'_>) -> Result<(), AllocError> {
    out.push_str("<svg xmlns=\"http://www.w3.org/2000/svg\"")?;
    put_size(out, window)?;
    out.push_str(" font-family=\"sans-serif\" font-size=\"12\">\n<rect")?;
    put_size(out, window)?;
    out.push_str(" fill=\"white\" stroke=\"gray\"/>\n")?;
    Ok(())
}

// Appends the view's rectangle.
fn put_rectangle(out: &mut String, view: &Frame<'_>) -> Result<(), AllocError> {
    out.push_str("<rect")?;
    put_left_top(out, view)?;
    put_size(out, view)?;
    out.push_str(" fill=\"steelblue\" fill-opacity=\"0.2\" stroke=\"steelblue\"/>\n<text")
}

// Appends a rectangle with the view's name in its corner.
fn put_view(out: &mut String, view: &Frame<'_>) -> Result<(), AllocError> {
    put_rectangle(out, view)?;
    put_left_top(out, view)?;
    let name = view.name;
    write!(out, " dx=\"4\" dy=\"14\">{name}</text>\n")
}

/// Appends the drawing of the frames, of which the first is the window's.
pub fn put_drawing(out: &mut String, frames: &[Frame<'_>]) -> Result<(), AllocError> {
    for (place, frame) in frames.iter().enumerate() {
        if place == 0 {
            put_head(out, frame)?;
        } else {
            put_view(out, frame)?;
        }
    }
    out.push_str("</svg>\n")
}
