//! Notes on options that do less than they seem to.

/// Words, and the notes on them.
pub const NOTES: &str = "\
=>
override|--share=network|--share=ipc|org.x.App|=>
override|--nosocket=x11|--nofilesystem=host|=>
override|--filesystem=home|--filesystem=~/docs|=>
override|--nosocket=X11|=> \
    fpk: no known socket: X11; it is kept and denies nothing (known: x11, wayland, fallback-x11, pulseaudio, session-bus, system-bus, ssh-auth, pcsc, cups)|
override|--unshare=netwrk|--share=network,ipc|=> \
    fpk: no known share: netwrk; it is kept and denies nothing (known: network, ipc)|\
    fpk: no known share: network,ipc; it is kept and grants nothing (known: network, ipc)|
launch|app/org.x.App/x86_64/stable|--device=gpu|=> \
    fpk: no known device: gpu; it is kept and grants nothing (known: dri, kvm, shm, all)|
override|--disallow=usb|org.x.App|=> \
    fpk: no known feature: usb; it is kept and denies nothing (known: devel, multiarch, bluetooth, canbus, per-app-dev-shm)|
override|--nofilesystem=home|=> fpk: ~ is another name of home, and stays as it is|
override|--nofilesystem=~|=> fpk: home is another name of ~, and stays as it is|
override|--nofilesystem=~/docs|org.x.App|=> \
    fpk: home/docs is another name of ~/docs, and stays as it is|
override|--nofilesystem=home/docs:ro|=> \
    fpk: ~/docs is another name of home/docs, and stays as it is|
override|--nofilesystem=homes|--nofilesystem=~user|=>
override|--env=home=~|--persist=home|--nosocket=cups|=>
";
