use command_line::Request;
use command_support::{NamedFiles, Role};

/// The files that a request names, by their roles.
pub fn named_files<'a>(request: &Request<'a>) -> NamedFiles<'a> {
    match request {
        Request::Board | Request::BoardSteps | Request::Show(_) => NamedFiles::none(),
        Request::Summary(call) => NamedFiles::one(Role::Image, call.image),
        Request::Generate(call) => NamedFiles::one(Role::Image, call.image),
        Request::Order(call) => NamedFiles::one(Role::Image, call.image),
        Request::Text(call) => NamedFiles::one(Role::Image, call.image),
        Request::Map(call) => {
            NamedFiles::one(Role::Image, call.image).with(Role::Drawing, call.svg)
        }
        Request::Collect(call) => image_and_out(call.image, call.out),
        Request::Upgrade(call) => image_and_out(call.image, call.out),
        Request::Reduce(call) => image_and_out(call.image, call.out),
        Request::Verify(call) => before_and_after(call.before, call.after),
        Request::Compare(call) => before_and_after(call.before, call.after),
        Request::Replay(call) => image_and_schedule(call.image, call.schedule),
        Request::Assemble(call) => {
            NamedFiles::two((Role::Text, call.text), (Role::Image, call.image))
        }
        Request::Record(call) => {
            image_and_out(call.image, call.out).with(Role::Schedule, Some(call.schedule))
        }
        Request::Import(call) => {
            NamedFiles::two((Role::Dump, call.dump), (Role::Image, call.image)).with(
                Role::Drawing,
                call.classes,
            )
        }
        Request::Timeline(call) => {
            image_and_schedule(call.image, call.schedule).with(
                Role::Drawing,
                call.svg.or(call.html),
            )
        }
    }
}

/// The image that is read, and the one that is written.
fn image_and_out<'a>(image: &'a str, out: &'a str) -> NamedFiles<'a> {
    NamedFiles::two((Role::Image, image), (Role::Out, out))
}

fn before_and_after<'a>(before: &'a str, after: &'a str) -> NamedFiles<'a> {
    NamedFiles::two((Role::Before, before), (Role::After, after))
}

fn image_and_schedule<'a>(image: &'a str, schedule: &'a str) -> NamedFiles<'a> {
    NamedFiles::two((Role::Image, image), (Role::Schedule, schedule))
}
